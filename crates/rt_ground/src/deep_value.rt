ghost use Rattle.std.specs.Prelude.{◌≡◌, [], true, IfOk};
ghost use Rattle.rt_ground.specs.Callers.{fronts_from};
ghost use Rattle.rt_ground.specs.DeepCalls.{SettledBy, PutsOnce, GetsFrom};
ghost use Rattle.rt_ground.specs.Histories.{whats, Tells, AreOfCallers};
ghost use Rattle.rt_deep.specs.Files.{AreOnce};

use crate::naming::Naming;
use crate::register::Register;
use rt_deep::{DeepPut, DeepRefused, DeepStore, MemoryDeep};
use rt_front::{Blank, Chronicle, Front, Keeper, found};
use rt_lists::Bytes;
use std::alloc::{AllocError, Global};
use std::marker::{Model, PhantomData};

/// The deep store behind its lock. Contracts see the history of the files that were put.
///
/// Each call answers by all files, which the front has seen afterwards. A put that finds nothing at its path is the last
/// entry then, and the front has one entry more of its own; one that finds the same bytes, or is refused, adds nothing,
/// and so does one for which memory runs out.
#[derive(Drop)]
pub struct DeepValue<J: Naming> {
    files: MemoryDeep,
    register: Register<DeepPut>,
    of: PhantomData<J>,
}

impl<J: Naming> Model for DeepValue<J> {
    ghost use Rattle.std.specs.Prelude.{List};
    ghost use Rattle.rt_deep.specs.declared.deep_put.DeepPut.{DeepPut};
    ghost use Rattle.rt_front.specs.declared.entry.Entry.{Entry};

    ghost Value = { List (Entry DeepPut) };

    ghost use Rattle.std.specs.Prelude.{◌≡◌};
    ghost use Rattle.rt_deep.specs.Files.{AreOnce};
    ghost use Rattle.rt_ground.specs.Histories.{whats};
    ghost use Rattle.rt_ground.specs.DeepCalls.{held};

    ghost view = { λ v. v.register.log };

    ghost invariant = { λ v. (v.register.chronicle ≡ J.names.deep) × (v.files ≡ held v.register.log)
        × (v.register.made ≡ J.callers) × AreOnce (whats v.register.log) };
}

impl<J: Naming> DeepValue<J> {
    /// Founds a deep store without any file, and the fronts of so many callers. No other front of it is made.
    pub fn found(
        alloc: Global,
        blank: Blank<DeepPut>,
        callers: u32,
    ) -> Result<(Chronicle<DeepPut>, DeepValue<J>, Vec<Front<DeepPut>>), AllocError>
        requires name { blank ≡ J.names.deep }
        requires callers { callers ≡ J.callers }
        ensures chronicle { IfOk result (λ r. r.0 ≡ J.names.deep) }
        ensures empty { IfOk result (λ r. r.1 ≡ []) }
        ensures fronts { IfOk result (λ r. r.2.items ≡ fronts_from J.names.deep 0 callers) }
    {
        let (chronicle, keeper, fronts) = found(alloc, blank, callers)?;
        let value = DeepValue::fresh(alloc, keeper);
        Ok((chronicle, value, fronts))
    }

    /// A deep store without any file. It takes no memory yet.
    fn fresh(alloc: Global, keeper: Keeper<DeepPut>) -> Self
        requires keeper { (keeper.chronicle ≡ J.names.deep) × (keeper.log ≡ []) × (keeper.made ≡ J.callers) }
        ensures { result ≡ [] }
    {
        DeepValue {
            files: MemoryDeep::make(alloc),
            register: Register::of(alloc, keeper),
            of: PhantomData,
        }
    }

    /// Puts a file. Where the same bytes stand at the path it adds nothing, and that is no refusal; where others do, it is
    /// refused by `OtherBytes`.
    pub fn put(
        &mut self,
        alloc: Global,
        chronicle: &Chronicle<DeepPut>,
        front: &mut Front<DeepPut>,
        path: &str,
        bytes: &[u8],
    ) -> Result<(), DeepRefused>
        requires { (chronicle.now ≡ J.names.deep) × (front.old.chronicle ≡ J.names.deep) }
        ensures name { front.new.chronicle ≡ front.old.chronicle }
        ensures deep { PutsOnce (record { path = path.now; bytes = bytes.now }) self.old self.new front.old front.new result }
    {
        let count = self.files.files().len();
        if self.register.reserve().is_err() {
            self.register.tell(chronicle, front);
            return Err(DeepRefused::Memory);
        }
        let answer = self.files.put(alloc, path, bytes);
        let files = self.files.files();
        settle(files, count, &mut self.register, chronicle, front, answer)
    }

    /// The bytes of the file at a path. `Absent` where nothing stands there.
    pub fn get(
        &mut self,
        alloc: Global,
        chronicle: &Chronicle<DeepPut>,
        front: &mut Front<DeepPut>,
        path: &str,
    ) -> Result<Bytes, DeepRefused>
        requires { (chronicle.now ≡ J.names.deep) × (front.old.chronicle ≡ J.names.deep) }
        ensures name { front.new.chronicle ≡ front.old.chronicle }
        ensures deep { GetsFrom path.now self.old self.new front.old front.new result }
    {
        let answer = self.files.get(alloc, path);
        self.register.tell(chronicle, front);
        answer
    }

    /// Brings a front up to the whole history.
    pub(crate) fn tell(&mut self, chronicle: &Chronicle<DeepPut>, front: &mut Front<DeepPut>)
        requires { (chronicle.now ≡ J.names.deep) × (front.old.chronicle ≡ J.names.deep) }
        ensures same { self.new ≡ self.old }
        ensures name { front.new.chronicle ≡ front.old.chronicle }
        ensures told { Tells self.old front.old front.new }
        ensures callers { AreOfCallers J.callers self.old }
        ensures once { AreOnce (whats self.old) }
    {
        self.register.tell(chronicle, front);
    }
}

/// Notes the file at this place, where a put added one; else tells the front.
fn settle(
    files: &[DeepPut],
    count: usize,
    register: &mut Register<DeepPut>,
    chronicle: &Chronicle<DeepPut>,
    front: &mut Front<DeepPut>,
    answer: Result<(), DeepRefused>,
) -> Result<(), DeepRefused>
    requires chronicle { (register.old.chronicle ≡ chronicle.now) × (front.old.chronicle ≡ chronicle.now) }
    requires room { register.old.room ≡ true }
    ensures same { result ≡ answer }
    ensures names { (register.new.chronicle ≡ register.old.chronicle) × (front.new.chronicle ≡ front.old.chronicle) }
    ensures made { register.new.made ≡ register.old.made }
    ensures settled { SettledBy files.now count register.old.log register.new.log front.old front.new answer }
{
    match answer {
        Ok(()) => {
            match files.get(count) {
                Some(file) => register.note(chronicle, front, file),
                None => register.tell(chronicle, front),
            }
            Ok(())
        }
        Err(refused) => {
            register.tell(chronicle, front);
            Err(refused)
        }
    }
}
