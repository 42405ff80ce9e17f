//! Transactions at work on a snapshot.
ghost use Rattle.std.specs.Prelude.{◌≡◌, ◌+◌, ◌≤◌, [], Err, IfErr, IfOk, IfSome, OnErr, OnOk, Ok, false, option_copied};
ghost use Rattle.lay_point.specs.Memory.{IsAnswer};
ghost use Rattle.lay_layouts.specs.Layout.{item_at};
ghost use Rattle.lay_layouts.specs.Sound.{IsSound};
ghost use Rattle.txn_commands.specs.Effects.{is_too_much, next_id};
ghost use Rattle.txn_commands.specs.Elements.{untouched};
ghost use Rattle.txn_commands.specs.Plans.{plan};
ghost use Rattle.txn_commands.specs.Transactions.{IsTransaction};
ghost use Rattle.txn_commands.specs.Writing.{rewritten};
ghost use Rattle.txn_work.specs.Answers.{after_command, answer_to, run_so_far};

use crate::marking::mark;
use band_workers::Bands;
use lay_items::Snapshot;
use lay_layouts::{Item, ItemId};
use lay_point::{NoMemory, Sequence};
use std::alloc::Global;
use std::marker::Model;
use std::thread::Threads;
use txn_commands::{CmdFault, Command, Done, MAX_COMMANDS, TxnId};
use txn_marks::{Footprint, Marks, Writes};
use txn_plans::{Act, LayoutView, plan};

/// A transaction on a snapshot: its accepted commands, what they wrote and what they touched. It keeps in
/// its type that its writes and its footprint are those of its commands, run on its snapshot.
#[derive(Drop)]
pub struct Work {
    id: TxnId,
    opened: u32,
    pub(crate) snapshot: Snapshot,
    /// The layout as it sees it, once a command needed it whole.
    pub(crate) whole: Option<Snapshot>,
    pub(crate) commands: Vec<Command>,
    /// How many items they made.
    made: u32,
    pub(crate) writes: Writes,
    pub(crate) footprint: Footprint,
    /// The last command that was refused after much of the layout was gone over, and the refusal. It would be
    /// refused so again, until another is accepted.
    pub(crate) refused: Option<(Command, CmdFault)>,
    /// What a history keeps of it, once that is made.
    pub(crate) marks: Option<Marks>,
}

impl Model for Work {
    ghost use Rattle.txn_commands.specs.Transactions.{Transaction};
    ghost use Rattle.txn_work.specs.Answers.{coded_transaction};
    ghost use Rattle.txn_work.specs.Works.{IsWork, transaction_of};

    ghost Value = { Transaction };

    ghost coded = { coded_transaction };

    ghost view = { transaction_of };

    ghost invariant = { IsWork };
}

impl Work {
    /// Returns a transaction of this name without commands, which the call at this place of the log opened.
    pub fn new(alloc: Global, snapshot: Snapshot, id: TxnId, opened: u32) -> Work
        ensures value { result ≡ record {
          id = id;
          opened = opened;
          snapshot = snapshot;
          commands = [];
          writes = record { items = []; symbols = [] };
          footprint = untouched;
        } }
        ensures transaction { IsTransaction result }
    {
        // for the proof: a snapshot is sound
        snapshot.version();
        Work {
            id,
            opened,
            snapshot,
            whole: None,
            commands: Vec::new(alloc),
            made: 0,
            writes: Writes::new(alloc),
            footprint: Footprint::new(alloc),
            refused: None,
            marks: None,
        }
    }

    /// Returns the name of the transaction.
    pub fn id(&self) -> TxnId
        ensures value { result ≡ self.now.id }
        ensures transaction { IsTransaction self.now }
    {
        self.id
    }

    /// Does nothing. For proofs: its snapshot is sound, and it is a transaction.
    pub fn known(&self)
        ensures sound { IsSound self.now.snapshot }
        ensures transaction { IsTransaction self.now }
    {
        // for the proof: a snapshot is sound, and what has a name is a transaction
        self.snapshot.version();
        self.id();
    }

    /// Returns the place of its open in the log, from 0.
    pub fn opened(&self) -> u32
        ensures { result ≡ self.now.opened }
    {
        self.opened
    }

    /// Lends the layout on which its commands run.
    pub fn snapshot(&self) -> &Snapshot
        ensures { result.now ≡ self.now.snapshot }
    {
        &self.snapshot
    }

    /// Lends its accepted commands, in order.
    pub fn commands(&self) -> &[Command]
        ensures { result.now ≡ self.now.commands }
    {
        self.commands.as_slice()
    }

    /// Lends what it wrote.
    pub fn writes(&self) -> &Writes
        ensures { result.now ≡ self.now.writes }
    {
        &self.writes
    }

    /// Lends what it read or wrote.
    pub fn footprint(&self) -> &Footprint
        ensures { result.now ≡ self.now.footprint }
    {
        &self.footprint
    }

    /// Lends the item of this id as the transaction sees it.
    ///
    /// # Cost
    ///
    /// Comparisons in proportion to the logarithm of the number of items.
    pub fn item(&self, id: ItemId) -> Option<&Item>
        ensures { option_copied result ≡ item_at (run_so_far self.now).layout id }
    {
        self.seen().item(id)
    }

    /// Runs a command in the transaction. The refusals come in the order of the command's tests, and
    /// `TxnFull` after them; any answer can give way to `NoMemory`. A refused command changes nothing.
    /// `bands` finds the edges of a Boolean, which is rounded in as many threads as there are processors.
    ///
    /// # Errors
    ///
    /// The first refusal of the command's tests, in their order, and `TxnFull` after them; `NoMemory`, if an allocation
    /// fails. Nothing is changed then.
    ///
    /// # Cost
    ///
    /// That of its plan, and of `Version::with` once a command needed the whole layout. A call, an operation or
    /// the removal of a symbol that is refused, and asked again before another command is accepted, is refused
    /// at once.
    pub fn run(
        &mut self,
        rt: &(impl Threads + Sync),
        alloc: Global,
        command: Command,
        bands: &impl Bands,
    ) -> Result<Done, CmdFault>
        ensures answer { IsAnswer CmdFault.NoMemory result (answer_to self.old command) }
        ensures ok { OnOk result (self.new ≡ after_command self.old command) }
        ensures err { OnErr result (self.new ≡ self.old) }
    {
        if let Some(fault) = self.known_refusal(&command) {
            return Err(fault);
        }
        match self.planned(rt, alloc, &command, bands) {
            Ok(act) => Ok(self.perform(alloc, act, command)?),
            Err(fault) => {
                self.keep_refusal(command, fault);
                Err(fault)
            }
        }
    }

    /// Returns how the command is refused, where that is known.
    fn known_refusal(&self, command: &Command) -> Option<CmdFault>
        ensures { IfSome result (λ fault. answer_to self.now command.now ≡ Err fault) }
    {
        match &self.refused {
            Some((refused, fault)) if refused == command => Some(*fault),
            _ => None,
        }
    }

    /// Keeps how a command was refused, where much of the layout was gone over.
    fn keep_refusal(&mut self, command: Command, fault: CmdFault)
        requires { IsAnswer CmdFault.NoMemory (Err fault) (answer_to self.old command) }
        ensures { self.new ≡ self.old }
    {
        if needs_whole(&command) && fault != CmdFault::NoMemory {
            self.refused = Some((command, fault));
        }
    }

    /// Plans a command, or returns its refusal. `TxnFull` comes after those of the plan.
    fn planned(
        &mut self,
        rt: &(impl Threads + Sync),
        alloc: Global,
        command: &Command,
        bands: &impl Bands,
    ) -> Result<Act, CmdFault>
        ensures same { self.new ≡ self.old }
        ensures planned { IfOk result (λ act. plan (next_id self.old.id (run_so_far self.old)) command.now
            (run_so_far self.old).layout ≡ Ok act) }
        ensures room { IfOk result (λ act. is_too_much (run_so_far self.old) act ≡ false) }
        ensures err { IfErr result (λ fault. IsAnswer CmdFault.NoMemory (Err fault) (answer_to self.old command.now)) }
    {
        self.keep_whole(alloc, command)?;
        let act = plan(rt, alloc, bands, &self.seen(), self.next_id(), command)?;
        if self.has_no_room_for(&act) {
            return Err(CmdFault::TxnFull);
        }
        Ok(act)
    }

    /// Returns the layout as the transaction sees it.
    fn seen(&self) -> LayoutView<'_>
        ensures { result ≡ (run_so_far self.now).layout }
    {
        LayoutView::new(&self.snapshot, &self.writes, self.whole.as_ref())
    }

    /// Keeps the layout as the transaction sees it, where the command needs it whole: it goes on with each
    /// command, so it is made once.
    fn keep_whole(&mut self, alloc: Global, command: &Command) -> Result<(), NoMemory>
        ensures { self.new ≡ self.old }
    {
        if self.whole.is_none() && needs_whole(command) {
            let whole = self.seen().whole(alloc)?;
            self.whole = Some(whole);
        }
        Ok(())
    }

    /// Returns the layout after an act that was planned, where the one before it is kept and memory is left.
    fn whole_after(&self, alloc: Global, command: &Command, act: &Act) -> Option<Snapshot>
        requires planned { plan (next_id self.now.id (run_so_far self.now)) command.now
            (run_so_far self.now).layout ≡ Ok act.now }
        requires room { is_too_much (run_so_far self.now) act.now ≡ false }
        ensures { IfSome result (λ whole.
            whole ≡ rewritten (run_so_far self.now).layout act.now.items act.now.symbols) }
    {
        let whole = self.whole.as_ref()?;
        let next = act.over(alloc, whole.version()).ok()?;
        Snapshot::of(alloc, next).ok()
    }

    /// Returns the id of the next new item.
    fn next_id(&self) -> ItemId
        ensures { result ≡ next_id self.now.id (run_so_far self.now) }
    {
        ItemId {
            session: self.id.session,
            txn: self.id.txn,
            seq: self.made + 1,
        }
    }

    /// Returns whether the act would make too many commands, or items.
    fn has_no_room_for(&self, act: &Act) -> bool
        ensures { result ≡ is_too_much (run_so_far self.now) act.now }
    {
        self.commands.len() >= MAX_COMMANDS
            || u64::from(self.made) + u64::from(act.made) > MAX_COMMANDS as u64
    }

    /// Performs what a command was planned to do.
    fn perform(&mut self, alloc: Global, act: Act, command: Command) -> Result<Done, NoMemory>
        requires planned { plan (next_id self.old.id (run_so_far self.old)) command
            (run_so_far self.old).layout ≡ Ok act }
        requires room { is_too_much (run_so_far self.old) act ≡ false }
        ensures done { IfOk result (λ done. Ok done ≡ answer_to self.old command) }
        ensures ok { OnOk result (self.new ≡ after_command self.old command) }
        ensures err { OnErr result (self.new ≡ self.old) }
    {
        let whole = self.whole_after(alloc, &command, &act);
        let Act {
            done,
            elements,
            written,
            made,
        } = act;
        let more = made_after(self.made, made);
        self.commands.reserve(1)?;
        mark(
            alloc,
            &self.snapshot,
            &mut self.writes,
            &mut self.footprint,
            &elements,
            written,
        )?;
        self.made = more;
        self.whole = whole;
        self.refused = None;
        self.marks = None;
        self.commands.push(command).unwrap();
        Ok(done)
    }
}

/// Returns whether the command goes over more of the layout than single items and symbols.
fn needs_whole(command: &Command) -> bool {
    match command {
        Command::Place { .. } => true,
        Command::Bool { .. } => true,
        Command::DropCell(_) => true,
        _ => false,
    }
}

/// Returns how many items are made behind an act that makes so many.
fn made_after(made: u32, more: u32) -> u32
    requires { made + more ≤ MAX_COMMANDS }
    ensures { result ≡ made + more }
{
    made + more
}
