//! The expected run: the lawful history of a scenario, played only as far as the lines that are
//! compared with it.
ghost use Rattle.std.specs.Prelude.{◌≡◌, ◌≢◌, ◌+◌, ◌-◌, ◌^◌, ◌<◌, Some, IsTrue, List, [], ◌∷◌, ◌++◌, IfOk, OnOk, IfErr, MatchResult, true, false, length, drop, slice_get, slice_index_or};
ghost use Rattle.std.specs.Option.{option_copied};
ghost use Rattle.lawful_history.specs.Sides.{world_of};
ghost use Rattle.lawful_history.specs.Lawful.{IsLawfulIn};
ghost use Rattle.lawful_history.specs.Versions.{is_version};
ghost use Rattle.lawful_history.specs.Frames.{HaveFrames};
ghost use Rattle.simulator.specs.Log.{Output};
ghost use Rattle.simulator.specs.Simulator.{kept_lines};
ghost use Rattle.link_model.specs.Difference.{Differs};
ghost use Rattle.link_model.specs.Taken.{IsCause};
ghost use Rattle.link_model.specs.ExpectedRun.{world_in, IsPlayed, IsAlong, IsOver, GoesOn, remains};

use crate::copying::{ScenarioParts, parts_of};
use crate::fault::{Law, StepFault, Unlawful};
use crate::law::broken_law;
use ivs_base::NoMemory;
use lawful_history::{Line, records_hold_one_history};
use scenario_text::{Act, Scenario};
use simulator::Simulator;
use std::alloc::Global;

/// The least number of lines that wait after a part is played, unless the schedule is over.
const PART: usize = 256;

/// A scenario, and the simulator that plays it as far as the lines that were taken.
#[derive(Drop)]
pub struct ExpectedRun {
    /// The scenario.
    pub scenario: ScenarioParts,
    /// The version of the record whose lines are taken.
    pub version: u32,
    /// The simulator.
    pub simulator: Simulator,
    /// The index of the next act.
    pub at: usize,
    /// The peer whose turns are left.
    pub peer: u32,
    /// The number of turns that are left before that act.
    pub left: u32,
    /// The number of the simulator's lines that were taken.
    pub passed: usize,
}

impl ExpectedRun {
    /// Returns an expected run that took no line, for a record of this version. Returns `NoMemory`
    /// if memory ran out.
    pub fn new(alloc: Global, scenario: Scenario, version: u32) -> Result<ExpectedRun, NoMemory>
        requires { is_version version ≡ true }
        ensures { IfOk result (λ expected_run. GoesOn [] expected_run ×
            (world_in expected_run ≡ world_of scenario) × (expected_run.version ≡ version)) }
    {
        let mut expected_run = ExpectedRun {
            simulator: Simulator::new(alloc, &scenario, version)?,
            scenario: parts_of(scenario),
            version,
            at: 0,
            peer: 0,
            left: 0,
            passed: 0,
        };
        expected_run.settle()?;
        Ok(expected_run)
    }

    /// Plays the next act. The turns of a `turn` act are only counted.
    fn play_act(&mut self) -> Result<(), NoMemory>
        requires played { (output : Output) × IsPlayed output self.old }
        requires left { self.old.left ≡ 0 }
        requires inside { self.old.at < length (world_in self.old).acts }
        requires room { self.old.at < 2 ^ 64 - 1 }
        ensures played { (output : Output) → IsPlayed output self.old → OnOk result (IsPlayed output self.new) }
        ensures fewer { OnOk result (remains self.new < remains self.old) }
        ensures passed { self.new.passed ≡ self.old.passed }
        ensures scenario { self.new.scenario ≡ self.old.scenario }
        ensures version { self.new.version ≡ self.old.version }
    {
        let act = &self.scenario.acts.items()[self.at];
        match act {
            Act::Turn { peer, steps } => {
                self.peer = *peer;
                self.left = *steps;
                self.at += 1;
                Ok(())
            }
            _ => {
                self.simulator.act(act)?;
                self.at += 1;
                Ok(())
            }
        }
    }

    /// Plays the next turn or act, and returns whether there was one.
    fn play_next(&mut self) -> Result<bool, NoMemory>
        requires { (output : Output) × IsPlayed output self.old }
        ensures played { (output : Output) → IsPlayed output self.old → OnOk result (IsPlayed output self.new) }
        ensures fewer { IfOk result (λ more. more ≡ true → remains self.new < remains self.old) }
        ensures over { IfOk result (λ more. more ≡ false → IsOver self.new) }
        ensures passed { self.new.passed ≡ self.old.passed }
        ensures scenario { self.new.scenario ≡ self.old.scenario }
        ensures version { self.new.version ≡ self.old.version }
    {
        if self.left > 0 {
            self.simulator.turn(self.peer)?;
            self.left -= 1;
            return Ok(true);
        }
        if self.at >= self.scenario.acts.items().len() {
            return Ok(false);
        }
        self.play_act()?;
        Ok(true)
    }

    /// Removes the simulator's lines, all of which were taken.
    fn drain(&mut self)
        requires { self.old.passed ≡ length (kept_lines self.old.simulator) }
        ensures along { (lines : List Line) → IsAlong lines self.old → IsAlong lines self.new }
        ensures remains { remains self.new ≡ remains self.old }
        ensures passed { self.new.passed ≡ 0 }
        ensures scenario { self.new.scenario ≡ self.old.scenario }
        ensures version { self.new.version ≡ self.old.version }
    {
        self.simulator.drain();
        self.passed = 0;
    }

    /// Plays until a line waits or the schedule is over.
    fn settle(&mut self) -> Result<(), NoMemory>
        requires { (lines : List Line) × IsAlong lines self.old }
        ensures on { (lines : List Line) → IsAlong lines self.old → OnOk result (GoesOn lines self.new) }
        ensures scenario { self.new.scenario ≡ self.old.scenario }
        ensures version { self.new.version ≡ self.old.version }
    {
        while self.passed == self.simulator.lines().len() {
            self.drain();
            if !self.play_next()? {
                return Ok(());
            }
        }
        Ok(())
    }

    /// Removes the simulator's lines, all of which were taken, and plays until `PART` lines wait or
    /// the schedule is over.
    fn play_part(&mut self) -> Result<(), NoMemory>
        requires along { (lines : List Line) × IsAlong lines self.old }
        requires all { self.old.passed ≡ length (kept_lines self.old.simulator) }
        ensures on { (lines : List Line) → IsAlong lines self.old → OnOk result (GoesOn lines self.new) }
        ensures scenario { self.new.scenario ≡ self.old.scenario }
        ensures version { self.new.version ≡ self.old.version }
    {
        self.drain();
        while self.simulator.lines().len() < PART {
            if !self.play_next()? {
                return Ok(());
            }
        }
        Ok(())
    }

    /// Returns the lines that wait: the lawful history continues with them. If no line waits, the
    /// lawful history is over.
    pub fn waiting(&self) -> &[Line]
        requires { (lines : List Line) × GoesOn lines self.now }
        ensures waiting { result.now ≡ drop self.now.passed (kept_lines self.now.simulator) }
        ensures frames { HaveFrames result.now }
    {
        &self.simulator.lines()[self.passed..]
    }

    /// Takes all lines that wait, and plays the next part.
    // claim on, scenario, version with ExpectedRun::new, ExpectedRun::waiting.waiting,
    //    ExpectedRun::waiting.frames, ExpectedRun::take.on, ExpectedRun::take.cause,
    //    ExpectedRun::take.scenario, ExpectedRun::take.version, ExpectedRun::close: An expected run
    //    takes all lines that wait at once: those with which the lawful history continues.
    pub fn pass(&mut self) -> Result<(), NoMemory>
        requires { (lines : List Line) × GoesOn lines self.old }
        ensures on { (lines : List Line) → GoesOn lines self.old →
            OnOk result (GoesOn (lines ++ drop self.old.passed (kept_lines self.old.simulator)) self.new) }
        ensures scenario { self.new.scenario ≡ self.old.scenario }
        ensures version { self.new.version ≡ self.old.version }
    {
        self.passed = self.simulator.lines().len();
        self.play_part()
    }

    /// Returns the next line of the lawful history, or `None` if it is over.
    fn due(&self) -> Option<&Line>
        ensures { option_copied result ≡ slice_get (kept_lines self.now.simulator) self.now.passed }
    {
        self.simulator.lines().get(self.passed)
    }

    /// Whether this line is the next one of the lawful history.
    fn is_due(&self, line: &Line) -> bool
        ensures due { IsTrue result → slice_get (kept_lines self.now.simulator) self.now.passed ≡ Some line.now }
        ensures other { result ≡ false → slice_get (kept_lines self.now.simulator) self.now.passed ≢ Some line.now }
        ensures room { IsTrue result → self.now.passed < 2 ^ 64 - 1 }
    {
        let lines = self.simulator.lines();
        self.passed < lines.len() && lines[self.passed].same(line)
    }

    /// Takes the line with this number. Returns `Unlawful` exactly if the lawful history doesn't
    /// continue with it, and `NoMemory` if memory ran out.
    pub fn take(&mut self, number: u64, line: &Line) -> Result<(), StepFault>
        requires { (lines : List Line) × GoesOn lines self.old }
        ensures on { (lines : List Line) → GoesOn lines self.old →
            OnOk result (GoesOn (lines ++ line.now ∷ []) self.new) }
        ensures cause { (lines : List Line) → GoesOn lines self.old → number ≡ length lines + 1 →
            IfErr result (IsCause (world_in self.old) self.old.version (lines ++ line.now ∷ [])) }
        ensures scenario { self.new.scenario ≡ self.old.scenario }
        ensures version { self.new.version ≡ self.old.version }
    {
        records_hold_one_history();
        if !self.is_due(line) {
            let law = broken_law(self.due(), line);
            return Err(StepFault::Unlawful(Unlawful { line: number, law }));
        }
        self.passed += 1;
        self.settle()?;
        Ok(())
    }

    /// Returns `Ok` exactly if all lines were taken. Otherwise the next line, which has this
    /// number, is missing.
    pub fn close(&self, number: u64) -> Result<(), Unlawful>
        ensures { (lines : List Line) → GoesOn lines self.now → number ≡ length lines + 1 →
            MatchResult result
            (λ _. IsLawfulIn (world_in self.now) self.now.version lines)
            (Differs (world_in self.now) self.now.version lines) }
    {
        records_hold_one_history();
        match self.due() {
            None => Ok(()),
            Some(_) => Err(Unlawful {
                line: number,
                law: Law::Order,
            }),
        }
    }
}
