//! A history that is compared with the lawful one, line by line.
ghost use Rattle.std.specs.Prelude.{◌≡◌, ◌≢◌, List, [], ◌∷◌, ◌++◌, IfOk, OnOk, IfErr, None, Some, Err, true};
ghost use Rattle.lawful_history.specs.Sides.{world_of};
ghost use Rattle.lawful_history.specs.Lawful.{IsLawfulIn};
ghost use Rattle.lawful_history.specs.Versions.{is_version};
ghost use Rattle.link_model.specs.Difference.{Begins, Differs};
ghost use Rattle.link_model.specs.Taken.{IsCause};

use crate::copying::copy_of_scenario;
use crate::expected_run::ExpectedRun;
use crate::fault::{StepFault, Unlawful};
use ivs_base::NoMemory;
use lawful_history::{Line, records_hold_one_history};
use scenario_text::Scenario;
use std::alloc::Global;
use std::marker::Model;

/// A history of a scenario, checked line by line. A run owns its copy of the scenario and the state
/// of the simulator after the lines that it took. A run keeps no line that it took.
#[derive(Drop)]
pub struct Run {
    expected_run: ExpectedRun,
    next: u64,
    fault: Option<StepFault>,
}

impl Model for Run {
    ghost use Rattle.std.specs.Prelude.{◌-◌, take};
    ghost use Rattle.link_model.specs.Taken.{Taking};
    ghost use Rattle.link_model.specs.ExpectedRun.{world_in, recorded_of, IsGoing};

    ghost Value = { Taking };

    ghost view = { λ run. record { world = world_in run.expected_run; version = run.expected_run.version; lines = take (run.next - 1) (recorded_of run.expected_run); fault = run.fault } };

    ghost invariant = { λ run. IsGoing run.fault run.next run.expected_run };
}

impl Run {
    /// Returns a run that took no line, for a record of this version, 1 or 2. Copies the scenario.
    /// Returns `NoMemory` if memory ran out.
    // claim: A new run has taken no line of its scenario, and is for the version given: version 1
    //    has no mark of a session, version 2 each that the history has.
    pub fn new(alloc: Global, scenario: &Scenario, version: u32) -> Result<Run, NoMemory>
        requires { is_version version ≡ true }
        ensures { IfOk result
            (λ run. run ≡ record { world = world_of scenario.now; version = version; lines = []; fault = None }) }
    {
        let scenario = copy_of_scenario(alloc, scenario)?;
        Ok(Run {
            expected_run: ExpectedRun::new(alloc, scenario, version)?,
            next: 1,
            fault: None,
        })
    }

    /// Takes the next line of the history. Returns `Unlawful`, with the line's number and the law
    /// that it breaks, exactly if no lawful history continues with this line. The histories are
    /// those of the scenario, in a record of the run's version. Returns `NoMemory` if memory ran
    /// out. After a fault each step returns that fault.
    // claim taken, lawful: A step is Ok exactly if what a record of the run's version holds of each
    //    lawful history of the scenario begins with the lines taken and this one.
    // claim cause: `Unlawful` has the number of the first line that differs, from 1, and the law
    //    that is broken between the line due and the line found: the first rule that applies.
    // claim again, ended: After a fault each step answers that fault, and the lines taken stay.
    pub fn step(&mut self, line: &Line) -> Result<(), StepFault>
        ensures taken { OnOk result (self.new ≡ record self.old { lines = self.old.lines ++ line.now ∷ [] }) }
        ensures lawful { OnOk result (Begins self.new.world self.new.version self.new.lines) }
        ensures ended { IfErr result (λ fault. self.new ≡ record self.old { fault = Some fault }) }
        ensures cause { self.old.fault ≡ None →
            IfErr result (IsCause self.old.world self.old.version (self.old.lines ++ line.now ∷ [])) }
        ensures again { (fault : StepFault) → self.old.fault ≡ Some fault → result ≡ Err fault }
    {
        records_hold_one_history();
        if let Some(fault) = self.fault {
            return Err(fault);
        }
        // No memory holds a history of more lines than a u64 counts.
        let Some(after) = self.next.checked_add(1) else {
            self.fault = Some(StepFault::NoMemory);
            return Err(StepFault::NoMemory);
        };
        match self.expected_run.take(self.next, line) {
            Ok(()) => {
                self.next = after;
                Ok(())
            }
            Err(fault) => {
                self.fault = Some(fault);
                Err(fault)
            }
        }
    }

    /// Returns `Ok` exactly if the lines taken are all lines that a record of the run's version has
    /// of a lawful history. Otherwise returns the first line that is unlawful or missing.
    // claim whole, missing, again: `close` is Ok exactly if the lines taken are what a record of
    //    the run's version holds of a lawful history. Otherwise it has the next line's number with
    //    the law Order, or the earlier fault.
    pub fn close(&self) -> Result<(), Unlawful>
        requires { self.now.fault ≢ Some StepFault.NoMemory }
        ensures whole { OnOk result (IsLawfulIn self.now.world self.now.version self.now.lines) }
        ensures missing { self.now.fault ≡ None →
            IfErr result (Differs self.now.world self.now.version self.now.lines) }
        ensures again { (fault : Unlawful) → self.now.fault ≡ Some (StepFault.Unlawful fault) → result ≡ Err fault }
    {
        records_hold_one_history();
        match self.fault {
            None => self.expected_run.close(self.next),
            Some(StepFault::Unlawful(fault)) => Err(fault),
            Some(StepFault::NoMemory) => unreachable!(),
        }
    }
}
