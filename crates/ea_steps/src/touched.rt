//! What a step can release, and which carriers it can take away, make or resize: a few blocks and
//! carriers, which are known before it.
ghost use Rattle.std.specs.Prelude.{◌≡◌, [], ◌∷◌, OnOk, option_map, reverse};
ghost use Rattle.std.specs.Option.{option_and_then};
ghost use Rattle.ea_machine.specs.Outcome.{line_of};
ghost use Rattle.ea_machine.specs.Setup.{migration};
ghost use Rattle.ea_machine.specs.Stops.{run_with_stops};
ghost use Rattle.ea_sound.specs.Turns.{answered};
ghost use Rattle.ea_sched.specs.Wants.{works_off_at};
ghost use Rattle.ea_given.specs.Between.{heard_after, wanted_after};
ghost use Rattle.ea_given.specs.Runs.{HasScheduler, IsRun, Tells};
ghost use Rattle.ea_steps.specs.FoundCarriers.{carrier_there, first_number};
ghost use Rattle.ea_steps.specs.Noted.{IsTouched};
ghost use Rattle.ea_steps.specs.Noting.{Adds, AddsNames, clears_told, creates_told, if_linked};
ghost use Rattle.ea_steps.specs.Noting.{if_taken, linked_names, names_told, of_walk};
ghost use Rattle.ea_steps.specs.Noting.{sent_names, taken_names};
ghost use Rattle.ea_steps.specs.Taking.{step_after};
ghost use Rattle.ea_steps.specs.Touched.{as_list, block_of, blocks_of, first_freed};
ghost use Rattle.ea_steps.specs.Touched as specs;

use crate::placed::PlacedBlock;
use ea_given::{GivenRun, Heard};
use ea_machine::{Named, Node};
use ea_model::{BlockAt, CarrierLine, Op, OutOfMemory};
use ea_sched::Wanted;
use ea_shared::Link;
use std::alloc::Global;

/// What a step can touch, as it is before the step.
#[derive(Drop)]
pub(crate) struct Touched {
    /// The blocks that it may release.
    pub blocks: Vec<PlacedBlock>,
    /// The carriers that it may take away.
    pub carriers: Vec<u32>,
    /// The carrier whose pages it may change.
    pub resized: Option<CarrierLine>,
    /// The carrier that its row creates.
    pub creates: Option<u32>,
    /// How many carriers its scheduler has created.
    pub created: u32,
    /// How many entries the log of its scheduler has.
    pub entries: usize,
}

/// The name whose block an operation frees, or gives a new size.
fn freed_by(op: Op) -> Option<u32>
    ensures { as_list result ≡ specs.freed_by op }
{
    match op {
        Op::Free { name } => Some(name),
        Op::Realloc { old, .. } => Some(old),
        Op::Alloc { .. } | Op::Give { .. } | Op::Take { .. } | Op::Info | Op::Idle => None,
    }
}

/// The name whose block the present operation of scheduler `me` frees, or gives a new size.
fn freed_name(run: &GivenRun<'_>, me: u32) -> Option<u32>
    requires stands { IsRun run.now }
    requires scheduler { HasScheduler me run.now }
    ensures { Tells (λ setup turns. as_list result
        ≡ first_freed ((run_with_stops setup turns).actors me).todo) run.now }
{
    match run.at(me).operation() {
        Some(op) => freed_by(op),
        None => None,
    }
}

/// The block that the present operation of scheduler `me` frees, or gives a new size, if it holds
/// the name.
fn of_operation(run: &GivenRun<'_>, me: u32) -> Option<Named>
    requires stands { IsRun run.now }
    requires scheduler { HasScheduler me run.now }
    ensures { Tells (λ setup turns. as_list result
        ≡ specs.of_operation ((run_with_stops setup turns).actors me)) run.now }
{
    let name = freed_name(run, me)?;
    let spot = run.spot_of(me, name)?;
    Some(Named { name, spot })
}

/// The carrier of that block.
fn resized_by(run: &GivenRun<'_>, me: u32) -> Option<CarrierLine>
    requires stands { IsRun run.now }
    requires scheduler { HasScheduler me run.now }
    ensures { Tells (λ setup turns. result ≡ option_map line_of
        (option_and_then (carrier_there setup (run_with_stops setup turns)) (first_number
        (specs.may_shrink ((run_with_stops setup turns).actors me))))) run.now }
{
    match of_operation(run, me) {
        Some(named) => run.line_of(named.spot.carrier),
        None => None,
    }
}

/// The carrier that a row creates.
fn created_by(wanted: Wanted) -> Option<u32>
    ensures { result ≡ creates_told wanted }
{
    match wanted {
        Wanted::Create { carrier } => Some(carrier),
        _ => None,
    }
}

impl Touched {
    /// Nothing.
    pub(crate) fn new(alloc: Global) -> Touched {
        Touched {
            blocks: Vec::new(alloc),
            carriers: Vec::new(alloc),
            resized: None,
            creates: None,
            created: 0,
            entries: 0,
        }
    }

    /// No block and no carrier.
    fn clear(&mut self)
        ensures blocks { self.new.blocks.items ≡ [] }
        ensures carriers { self.new.carriers.items ≡ [] }
    {
        self.blocks.clear();
        self.carriers.clear();
    }

    /// The step may take the carrier away, if it is there.
    fn add_carrier(&mut self, run: &GivenRun<'_>, number: u32) -> Result<(), OutOfMemory>
        requires stands { IsRun run.now }
        ensures { OnOk result (Tells (λ setup turns. Adds setup (run_with_stops setup turns)
            [] (number ∷ []) self.old self.new) run.now) }
    {
        if run.line_of(number).is_some() {
            self.carriers.push(number)?;
        }
        Ok(())
    }

    /// The step may release the block that begins at the spot of a name.
    fn add_block(&mut self, run: &GivenRun<'_>, named: Named) -> Result<(), OutOfMemory>
        requires stands { IsRun run.now }
        ensures { OnOk result (Tells (λ setup turns. Adds setup (run_with_stops setup turns)
            (named ∷ []) [] self.old self.new) run.now) }
    {
        let spot = named.spot;
        if let Some(there) = run.block_at(spot) {
            self.blocks.push(PlacedBlock {
                carrier: spot.carrier,
                block: BlockAt {
                    offset: spot.offset,
                    size: there.size,
                    name: there.name,
                },
            })?;
        }
        Ok(())
    }

    /// The step may release the block of a name, and take its carrier away.
    fn add(&mut self, run: &GivenRun<'_>, named: Named) -> Result<(), OutOfMemory>
        requires stands { IsRun run.now }
        ensures { OnOk result (Tells (λ setup turns. AddsNames setup (run_with_stops setup turns)
            (named ∷ []) self.old self.new) run.now) }
    {
        self.add_block(run, named)?;
        self.add_carrier(run, named.spot.carrier)
    }

    /// The same of a name, if there is one.
    fn add_some(&mut self, run: &GivenRun<'_>, named: Option<Named>) -> Result<(), OutOfMemory>
        requires stands { IsRun run.now }
        ensures { OnOk result (Tells (λ setup turns. AddsNames setup (run_with_stops setup turns)
            (as_list named) self.old self.new) run.now) }
    {
        match named {
            Some(named) => self.add(run, named),
            None => Ok(()),
        }
    }

    /// The same of the block of a node.
    fn add_node(&mut self, run: &GivenRun<'_>, node: Node) -> Result<(), OutOfMemory>
        requires stands { IsRun run.now }
        ensures { OnOk result (Tells (λ setup turns. AddsNames setup (run_with_stops setup turns)
            (block_of node) self.old self.new) run.now) }
    {
        match node {
            Node::Block { name, spot } => self.add(run, Named { name, spot }),
            Node::Carrier { .. } => Ok(()),
        }
    }

    /// The same of the blocks of these nodes, from the last one on.
    fn add_nodes(&mut self, run: &GivenRun<'_>, nodes: &[Node]) -> Result<(), OutOfMemory>
        requires stands { IsRun run.now }
        ensures { OnOk result (Tells (λ setup turns. AddsNames setup (run_with_stops setup turns)
            (blocks_of (reverse nodes.now)) self.old self.new) run.now) }
    {
        for node in nodes.iter().rev() {
            self.add_node(run, *node)?;
        }
        Ok(())
    }

    /// The same of the block of the operation of scheduler `me`.
    fn add_operation(&mut self, run: &GivenRun<'_>, me: u32) -> Result<(), OutOfMemory>
        requires stands { IsRun run.now }
        requires scheduler { HasScheduler me run.now }
        ensures { OnOk result (Tells (λ setup turns. AddsNames setup (run_with_stops setup turns)
            (specs.of_operation ((run_with_stops setup turns).actors me)) self.old self.new)
            run.now) }
    {
        self.add_some(run, of_operation(run, me))
    }

    /// The same of the blocks of all nodes that the walk of scheduler `me` passed, from the oldest
    /// on, and then of that of the operation.
    fn add_walk(&mut self, run: &GivenRun<'_>, me: u32) -> Result<(), OutOfMemory>
        requires stands { IsRun run.now }
        requires scheduler { HasScheduler me run.now }
        ensures { OnOk result (Tells (λ setup turns. AddsNames setup (run_with_stops setup turns)
            (of_walk ((run_with_stops setup turns).actors me)) self.old self.new) run.now) }
    {
        self.add_nodes(run, run.at(me).newest_passed())?;
        self.add_operation(run, me)
    }

    /// The same where scheduler `me` takes its queue, by its newest node.
    fn add_newest(
        &mut self,
        run: &GivenRun<'_>,
        me: u32,
        newest: Option<Node>,
    ) -> Result<(), OutOfMemory>
        requires stands { IsRun run.now }
        requires scheduler { HasScheduler me run.now }
        ensures { OnOk result (Tells (λ setup turns. AddsNames setup (run_with_stops setup turns)
            (taken_names ((run_with_stops setup turns).actors me) newest) self.old self.new)
            run.now) }
    {
        match newest {
            None => self.add_operation(run, me),
            Some(_) => Ok(()),
        }
    }

    /// The same by what is told of the answer.
    fn add_taken(&mut self, run: &GivenRun<'_>, me: u32, heard: Heard) -> Result<(), OutOfMemory>
        requires stands { IsRun run.now }
        requires scheduler { HasScheduler me run.now }
        ensures { OnOk result (Tells (λ setup turns. AddsNames setup (run_with_stops setup turns)
            (if_taken ((run_with_stops setup turns).actors me) heard) self.old self.new) run.now) }
    {
        match heard {
            Heard::Head { node } => self.add_newest(run, me, node),
            _ => Ok(()),
        }
    }

    /// The same where the walk of scheduler `me` reads this link of a node.
    fn add_link(
        &mut self,
        run: &GivenRun<'_>,
        me: u32,
        node: Node,
        link: Link,
    ) -> Result<(), OutOfMemory>
        requires stands { IsRun run.now }
        requires scheduler { HasScheduler me run.now }
        ensures { OnOk result (Tells (λ setup turns. AddsNames setup (run_with_stops setup turns)
            (linked_names ((run_with_stops setup turns).actors me) node link) self.old self.new)
            run.now) }
    {
        match link {
            Link::Rest => self.add_operation(run, me),
            Link::End => {
                self.add_node(run, node)?;
                self.add_walk(run, me)
            }
            Link::Next { .. } => Ok(()),
        }
    }

    /// The same by what is told of the answer.
    fn add_linked(
        &mut self,
        run: &GivenRun<'_>,
        me: u32,
        node: Node,
        heard: Heard,
    ) -> Result<(), OutOfMemory>
        requires stands { IsRun run.now }
        requires scheduler { HasScheduler me run.now }
        ensures { OnOk result (Tells (λ setup turns. AddsNames setup (run_with_stops setup turns)
            (if_linked ((run_with_stops setup turns).actors me) node heard) self.old self.new)
            run.now) }
    {
        match heard {
            Heard::Read { link } => self.add_link(run, me, node, link),
            _ => Ok(()),
        }
    }

    /// The same where scheduler `me` has sent a node on.
    fn add_sent(&mut self, run: &GivenRun<'_>, me: u32) -> Result<(), OutOfMemory>
        requires stands { IsRun run.now }
        requires scheduler { HasScheduler me run.now }
        ensures { OnOk result (Tells (λ setup turns. AddsNames setup (run_with_stops setup turns)
            (sent_names ((run_with_stops setup turns).actors me)
            (works_off_at ((run_with_stops setup turns).actors me).stage)) self.old self.new)
            run.now) }
    {
        if run.at(me).works_off() {
            return self.add_walk(run, me);
        }
        Ok(())
    }

    /// The blocks that the next step of `me` may release, and their carriers, if carriers don't
    /// migrate.
    fn add_told(
        &mut self,
        run: &GivenRun<'_>,
        me: u32,
        wanted: Wanted,
        heard: Heard,
    ) -> Result<(), OutOfMemory>
        requires stands { IsRun run.now }
        requires scheduler { HasScheduler me run.now }
        ensures { OnOk result (Tells (λ setup turns. AddsNames setup (run_with_stops setup turns)
            (names_told ((run_with_stops setup turns).actors me) wanted heard) self.old self.new)
            run.now) }
    {
        match wanted {
            Wanted::TakeAll => self.add_taken(run, me, heard),
            Wanted::TakeLink { node } => self.add_linked(run, me, node, heard),
            Wanted::Link { .. } => self.add_sent(run, me),
            _ => Ok(()),
        }
    }

    /// The blocks that the next step of `me` may release, and their carriers.
    fn add_blocks(
        &mut self,
        run: &GivenRun<'_>,
        me: u32,
        wanted: Wanted,
        heard: Heard,
    ) -> Result<(), OutOfMemory>
        requires stands { IsRun run.now }
        requires scheduler { HasScheduler me run.now }
        requires wanted { Tells (λ setup turns. wanted ≡ wanted_after setup turns me) run.now }
        requires heard { Tells (λ setup turns. heard ≡ heard_after setup turns me) run.now }
        ensures { OnOk result (Tells (λ setup turns. AddsNames setup (run_with_stops setup turns)
            (specs.touched (migration setup) ((run_with_stops setup turns).actors me)
            (answered (run_with_stops setup turns) me)) self.old self.new) run.now) }
    {
        let scheduler = run.at(me);
        if scheduler.migrating() {
            return self.add_some(run, scheduler.hand());
        }
        self.add_told(run, me, wanted, heard)
    }

    /// The carrier that a row deallocates.
    fn add_cleared(&mut self, run: &GivenRun<'_>, wanted: Wanted) -> Result<(), OutOfMemory>
        requires stands { IsRun run.now }
        ensures { OnOk result (Tells (λ setup turns. Adds setup (run_with_stops setup turns)
            [] (clears_told wanted) self.old self.new) run.now) }
    {
        match wanted {
            Wanted::Clear { carrier } => self.add_carrier(run, carrier),
            _ => Ok(()),
        }
    }

    /// Notes what the next step of scheduler `me` can touch, by the row that it wants and what that
    /// will answer.
    pub(crate) fn note(
        &mut self,
        run: &GivenRun<'_>,
        me: u32,
        wanted: Wanted,
        heard: Heard,
    ) -> Result<(), OutOfMemory>
        requires stands { IsRun run.now }
        requires scheduler { HasScheduler me run.now }
        requires wanted { Tells (λ setup turns. wanted ≡ wanted_after setup turns me) run.now }
        requires heard { Tells (λ setup turns. heard ≡ heard_after setup turns me) run.now }
        ensures { OnOk result (Tells (λ setup turns.
            IsTouched setup (step_after setup turns me) self.new) run.now) }
    {
        self.clear();
        self.add_cleared(run, wanted)?;
        self.add_blocks(run, me, wanted, heard)?;
        self.resized = resized_by(run, me);
        self.creates = created_by(wanted);
        let scheduler = run.at(me);
        self.created = scheduler.instance().created();
        self.entries = scheduler.log().len();
        Ok(())
    }
}
