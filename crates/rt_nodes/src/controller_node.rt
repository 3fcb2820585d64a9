use crate::Upkeep;
use rt_controller::Controller;
use rt_lists::Items;

/// A controller, which is up or down, with what it has under way for each partition.
#[derive(Drop)]
pub struct ControllerNode {
    pub controller: Controller,
    pub up: bool,
    pub upkeep: Items<Upkeep>,
}
