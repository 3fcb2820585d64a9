use crate::seat::ServerSeat;
use rt_broker::{PieceGiven, PieceGot};
use rt_front::Front;
use rt_ground::Naming;
use rt_live_names::{Cluster, Giver};
use rt_model::{Piece, Query};
use std::alloc::{AllocError, Global};

impl<R, J: Naming, K: Cluster> Giver<K> for ServerSeat<R, J, K> {
    ghost place = { λ s. s.acting.number };

    fn number(&self) -> u32 {
        self.acting.number()
    }

    fn give(
        &mut self,
        alloc: Global,
        query: &Query,
        at: u32,
        asking: u64,
        piece: Piece,
        front: &mut Front<PieceGiven>,
    ) -> Result<PieceGot, AllocError> {
        if !self.acting.has_room() {
            return Err(AllocError);
        }
        let given = self.acting.give(alloc, query, at, asking, piece)?;
        self.pieces.note(front, &given);
        let PieceGiven { got, .. } = given;
        Ok(got)
    }
}
