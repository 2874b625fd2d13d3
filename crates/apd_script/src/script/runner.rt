//! A script that runs, and what each of its lines does.
ghost use Rattle.std.specs.Prelude.{◌≡◌, ◌≢◌, None, IfErr, IfOk, IfSome, OnOk, Err, Ok};
ghost use Rattle.apd_ctrl.specs.Placing.{placing};
ghost use Rattle.apd_ctrl.specs.Reading.{outcome as command_outcome};
ghost use Rattle.apd_script.specs.Lines.{Received, Says, saying_of};
ghost use Rattle.apd_script.specs.Refused.{refusal_of};
ghost use Rattle.apd_script.specs.declared.script.fault.ScriptFault.TheVariants.{NoMemory};
ghost use Rattle.apd_world.specs.declared.step.Step.TheVariants.{Accept};

use super::fault::{ScriptFault, writer_fault};
use super::line::{Line, exactly_one_line, parse_line};
use super::output::{write_answers, write_command_told, write_reply, write_told};
use apd_base::Moment;
use apd_core::Input;
use apd_ctrl::{Placed, place};
use apd_disk::Disk;
use apd_mlme::Recipient;
use apd_radio::Radio;
use apd_store::StoreFault;
use apd_world::{Step, Told, World, WorldFault};
use std::alloc::Global;
use std::io::Write;

/// A script that runs: its world, the moment that it is at, the radios that are left for restarts, and
/// the first refusal of the store that a step of a batch met since the last start.
#[derive(Drop)]
pub struct Runner<D: Disk, R: Radio> {
    pub(super) alloc: Global,
    pub(super) world: World<D, R>,
    pub(super) moment: Moment,
    pub(super) spares: Vec<R>,
    pub(super) refusal: Option<StoreFault>,
}

/// Why the store refused a step of a batch, if it did.
fn refusal_of(told: &Told) -> Option<StoreFault>
    ensures { result ≡ refusal_of told.now }
{
    match told {
        Told::Loaded(Err(fault)) | Told::Called(Err(fault)) => Some(*fault),
        _ => None,
    }
}

impl<D: Disk + Drop, R: Radio> Runner<D, R> {
    ghost use Rattle.apd_script.specs.Script.{HandsOut, Flushes, IsBegun, IsCarriedOut, IsMade, IsPlaced, IsReceived, IsRequested, IsRun, IsTried, SaysAndIsRun, Starts};
    ghost use Rattle.apd_script.specs.Faults.{IsEndedBy, IsFlushRefused, IsLineFault, IsNoRefusal, IsSaidFault, IsShort, IsStartFault, IsUndone, IsUnwritten};

    /// A script at moment 0, whose world is not started yet. It takes no memory.
    pub fn begin(alloc: Global, world: World<D, R>, spares: Vec<R>) -> Runner<D, R>
        ensures { IsBegun world spares.items result }
    {
        Runner {
            alloc,
            world,
            moment: Moment(0),
            spares,
            refusal: None,
        }
    }

    /// Gives the script up, by a fault. Only here is one dropped, and by a call, since a proof goes through all that it
    /// holds.
    pub fn give_up<T>(self, fault: ScriptFault) -> Result<T, ScriptFault>
        ensures { result ≡ Err fault }
    {
        drop(self);
        Err(fault)
    }

    /// Keeps the script where what was done on it went well. A fault gives it up.
    pub fn keep_if(self, done: Result<(), ScriptFault>) -> Result<Runner<D, R>, ScriptFault>
        ensures ok { OnOk done (result ≡ Ok self) }
        ensures err { IfErr done (λ fault. result ≡ Err fault) }
    {
        match done {
            Ok(()) => Ok(self),
            Err(fault) => self.give_up(fault),
        }
    }

    /// The world that it ends with.
    pub fn into_world(self) -> World<D, R>
        ensures { result ≡ self.world }
    {
        let Runner { world, .. } = self;
        world
    }

    /// Makes a step, which may not lack memory.
    fn make_or_fault(&mut self, step: &Step<'_>) -> Result<Told, ScriptFault>
        ensures ok { OnOk result (IsMade D.model R.model step.now self.old self.new) }
        ensures err { IfErr result (λ why. why ≡ NoMemory) }
    {
        match self.make(step) {
            Told::NoMemory => Err(ScriptFault::NoMemory),
            told => Ok(told),
        }
    }

    /// Makes a step of a batch. What it tells is printed nowhere, and the first refusal is kept.
    fn attempt(&mut self, step: &Step<'_>)
        ensures { IsTried D.model R.model step.now self.old self.new }
    {
        let told = self.make(step);
        self.refusal = self.refusal.or(refusal_of(&told));
    }

    /// Prints what was handed out.
    fn print_answers<W: Write>(
        &self,
        writer: &mut W,
        answers: &[(Recipient, Told)],
    ) -> Result<(), ScriptFault>
        ensures { IfErr result IsUnwritten }
    {
        write_answers(self.alloc, writer, self.world.confs(), answers).map_err(writer_fault)
    }

    /// Starts the interfaces, and prints what was handed out.
    fn start_and_print<W: Write>(&mut self, writer: &mut W) -> Result<(), ScriptFault>
        ensures ok { OnOk result (Starts D.model R.model self.old self.new) }
        ensures err { IfErr result (IsUndone (Starts D.model R.model self.old self.new)
            (λ why. IsEndedBy D.model R.model why self.old.world self.new.world)) }
    {
        let answers = self.start()?;
        self.print_answers(writer, &answers)
    }

    /// Starts the interfaces of a script, or gives it up.
    pub fn start_or_give_up<W: Write>(self, writer: &mut W) -> Result<Runner<D, R>, ScriptFault>
        ensures ok { IfOk result (λ new. Starts D.model R.model self new) }
        ensures err { IfErr result (IsStartFault D.model R.model self) }
    {
        let mut runner = self;
        let done = runner.start_and_print(writer);
        runner.keep_if(done)
    }

    /// Hands out what is settled, and prints it.
    fn hand_out_and_print<W: Write>(&mut self, writer: &mut W) -> Result<(), ScriptFault>
        ensures ok { OnOk result (HandsOut D.model R.model self.old self.new) }
        ensures err { IfErr result (IsUndone (HandsOut D.model R.model self.old self.new)
            (λ why. IsShort D.model R.model why self.old.world self.new.world)) }
    {
        let answers = self.hand_out()?;
        self.print_answers(writer, &answers)
    }

    /// Commits until nothing is unsettled, hands out and prints that; or tells the first refusal.
    fn flush_and_print<W: Write>(&mut self, writer: &mut W) -> Result<(), ScriptFault>
        ensures ok { OnOk result (Flushes D.model R.model self.old self.new) }
        ensures refused { IfSome self.old.refusal (λ fault. result ≡ Err (ScriptFault.World (WorldFault.Store fault))) }
        ensures err { IfErr result (IsUndone (Flushes D.model R.model self.old self.new)
            (λ why. IsFlushRefused D.model R.model why self.old self.new.world)) }
    {
        if let Some(fault) = self.refusal {
            return Err(ScriptFault::World(WorldFault::Store(fault)));
        }
        let answers = self.flush()?;
        self.print_answers(writer, &answers)
    }

    /// Prints what the step of a request told.
    fn print_told<W: Write>(&self, writer: &mut W, told: &Told) -> Result<(), ScriptFault>
        ensures { IfErr result IsUnwritten }
    {
        write_told(self.alloc, writer, told).map_err(writer_fault)
    }

    /// Accepts a request at the moment, and prints the answer.
    fn accept<W: Write>(&mut self, writer: &mut W, input: Input<'_>) -> Result<(), ScriptFault>
        ensures ok { OnOk result (IsMade D.model R.model (Accept input.entry self.old.moment) self.old self.new) }
        ensures err { IfErr result (IsUndone (IsMade D.model R.model (Accept input.entry self.old.moment) self.old self.new)
            IsNoRefusal) }
    {
        let step = Step::Accept(input, self.moment);
        let told = self.make_or_fault(&step)?;
        self.print_told(writer, &told)
    }

    /// Accepts the frame of a line.
    fn receive<W: Write>(
        &mut self,
        writer: &mut W,
        number: u64,
        interface: &[u8],
        frame: &[u8],
    ) -> Result<(), ScriptFault>
        ensures ok { OnOk result (IsReceived D.model R.model interface.now frame.now self.old self.new) }
        ensures err { IfErr result (IsSaidFault D.model R.model number (Received interface.now frame.now) self.old) }
    {
        let Some(conf) = self.world.confs().with_interface(interface) else {
            return Err(ScriptFault::BadLine(number));
        };
        let bssid = conf.bssid;
        self.accept(writer, Input::Received(bssid, frame))
    }

    /// Prints what the step of a command told.
    fn print_command_told<W: Write>(
        &self,
        writer: &mut W,
        tag: u64,
        told: &Told,
    ) -> Result<(), ScriptFault>
        ensures { IfErr result IsUnwritten }
    {
        write_command_told(self.alloc, writer, tag, told).map_err(writer_fault)
    }

    /// Makes the step of a command, and prints what it told.
    fn make_command_step<W: Write>(
        &mut self,
        writer: &mut W,
        tag: u64,
        step: &Step<'_>,
    ) -> Result<(), ScriptFault>
        ensures ok { OnOk result (IsMade D.model R.model step.now self.old self.new) }
        ensures err { IfErr result (IsUndone (IsMade D.model R.model step.now self.old self.new) IsNoRefusal) }
    {
        let told = self.make_or_fault(step)?;
        self.print_command_told(writer, tag, &told)
    }

    /// Prints the refusal of a command.
    fn print_reply<W: Write>(
        &self,
        writer: &mut W,
        tag: u64,
        text: &[u8],
    ) -> Result<(), ScriptFault>
        ensures { IfErr result IsUnwritten }
    {
        write_reply(self.alloc, writer, tag, text).map_err(writer_fault)
    }

    /// Makes the step that becomes of a command.
    fn ask_or_do<W: Write>(
        &mut self,
        writer: &mut W,
        tag: u64,
        what: Placed,
    ) -> Result<(), ScriptFault>
        ensures ok { OnOk result (IsPlaced D.model R.model (placing what) self.old self.new) }
        ensures err { IfErr result (IsUndone (IsPlaced D.model R.model (placing what) self.old self.new) IsNoRefusal) }
    {
        match what {
            Placed::Ask(query) => {
                let step = Step::Ask(query);
                self.make_command_step(writer, tag, &step)
            }
            Placed::Do(event) => {
                let step = Step::Accept(Input::Order(event), self.moment);
                self.make_command_step(writer, tag, &step)
            }
        }
    }

    /// Carries out a text as a control command.
    fn carry_out<W: Write>(
        &mut self,
        writer: &mut W,
        tag: u64,
        text: &[u8],
    ) -> Result<(), ScriptFault>
        ensures ok { OnOk result (IsCarriedOut D.model R.model tag (command_outcome text.now) self.old self.new) }
        ensures err { IfErr result (IsUndone
            (IsCarriedOut D.model R.model tag (command_outcome text.now) self.old self.new) IsNoRefusal) }
    {
        match place(self, tag, text) {
            Ok(what) => self.ask_or_do(writer, tag, what),
            Err(refusal) => self.print_reply(writer, tag, refusal.text()),
        }
    }

    /// It is this moment from now on.
    fn tick<W: Write>(&mut self, writer: &mut W, moment: Moment) -> Result<(), ScriptFault>
        ensures ok { OnOk result (IsRequested D.model R.model None (record self.old { moment = moment }) self.new) }
        ensures err { IfErr result (IsUndone
            (IsRequested D.model R.model None (record self.old { moment = moment }) self.new) IsNoRefusal) }
    {
        self.moment = moment;
        self.accept(writer, Input::Tick)
    }

    /// Does what a line says that is no stop.
    fn act_on<W: Write>(
        &mut self,
        writer: &mut W,
        number: u64,
        line: &Line<'_>,
    ) -> Result<(), ScriptFault>
        ensures ok { line.now ≢ Line.Stop → OnOk result (IsRun D.model R.model number
            (saying_of line.now) self.old self.new) }
        ensures err { IfErr result (IsSaidFault D.model R.model number (saying_of line.now) self.old) }
    {
        match line {
            Line::Received { interface, frame } => {
                self.receive(writer, number, interface, frame.as_slice())
            }
            Line::Command(text) => self.carry_out(writer, number, text),
            Line::Tick(moment) => self.tick(writer, *moment),
            Line::Hand => self.hand_out_and_print(writer),
            Line::Flush => self.flush_and_print(writer),
            Line::Take => Ok(self.attempt(&Step::Take)),
            Line::Call => Ok(self.attempt(&Step::Call)),
            Line::Publish => Ok(self.attempt(&Step::Publish)),
            Line::Empty => Ok(()),
            Line::Stop => Ok(()),
        }
    }

    /// Does what a line says. A fault gives the script up.
    fn do_line<W: Write>(
        self,
        writer: &mut W,
        number: u64,
        line: &Line<'_>,
    ) -> Result<Runner<D, R>, ScriptFault>
        ensures ok { IfOk result (λ new. IsRun D.model R.model number (saying_of line.now) self new) }
        ensures err { IfErr result (IsSaidFault D.model R.model number (saying_of line.now) self) }
    {
        match line {
            Line::Stop => self.stop(writer, number),
            _ => {
                let mut runner = self;
                let done = runner.act_on(writer, number, line);
                runner.keep_if(done)
            }
        }
    }

    /// What a text says as a line.
    fn parse_text<'a>(&self, number: u64, text: &'a [u8]) -> Result<Line<'a>, ScriptFault>
        ensures ok { IfOk result (λ line. Says text.now (saying_of line)) }
        ensures err { IfErr result (IsLineFault D.model R.model number text.now self.now) }
    {
        match parse_line(self.alloc, text)? {
            Some(line) => Ok(line),
            None => Err(ScriptFault::BadLine(number)),
        }
    }

    /// Runs the line of a number. A fault gives the script up.
    pub fn run_line<W: Write>(
        self,
        writer: &mut W,
        number: u64,
        text: &[u8],
    ) -> Result<Runner<D, R>, ScriptFault>
        ensures ok { IfOk result (λ new. SaysAndIsRun D.model R.model number text.now self new) }
        ensures err { IfErr result (IsLineFault D.model R.model number text.now self) }
    {
        exactly_one_line();
        self.world.stops();
        match self.parse_text(number, text) {
            Ok(line) => self.do_line(writer, number, &line),
            Err(fault) => self.give_up(fault),
        }
    }
}
