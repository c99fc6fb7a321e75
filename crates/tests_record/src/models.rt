//! Two peers, the first of which ticks twice, and their history line by line.
ghost use Rattle.std.specs.Prelude.{◌≡◌, None, IfOk, OnOk};

use link_model::{Law, Line, Run, StepFault, Unlawful};
use scenario_text::parse;
use std::alloc::Global;
use std::test::Fail;

const SCENARIO: &[u8] =
    b"ivshm 1\npeers 2\ntable 4096\ncommon 0\nout 16384\nmtu 256\nirq msix 2\npeer 0 honest\npeer 1 honest\nbegin\ntick 0\nturn 0 2\ntick 0\nturn 0 3\nend\n";

/// Returns the nine lines of this history.
fn lines(alloc: Global) -> Result<Vec<Line>, Fail> {
    let mut lines = Vec::new(alloc);
    for state in [0, 1] {
        lines.push(Line::Read {
            peer: 0,
            word: 1,
            value: 0,
        })?;
        lines.push(Line::Saw { peer: 0, value: 0 })?;
        if state == 0 {
            lines.push(Line::State { peer: 0, value: 1 })?;
        }
        lines.push(Line::Over { peer: 0 })?;
    }
    lines.push(Line::Idle { peer: 0 })?;
    lines.push(Line::Idle { peer: 0 })?;
    Ok(lines)
}

fn unlawful(line: u64, law: Law) -> Unlawful {
    Unlawful { line, law }
}

/// Passes these lines to the run.
fn take(run: &mut Run, lines: &[Line]) -> Result<(), StepFault>
    ensures { OnOk result (run.new.fault ≡ run.old.fault) }
{
    for line in lines {
        run.step(line)?;
    }
    Ok(())
}

/// Returns a run of the scenario, which outlives the scenario.
fn new_run(alloc: Global) -> Result<Run, Fail>
    ensures { IfOk result (λ run. run.fault ≡ None) }
{
    let scenario = parse(alloc, SCENARIO)?;
    Ok(Run::new(alloc, &scenario, 1)?)
}

/// Whether the run refuses this line for this fault, and is closed with that fault.
#[must_use]
fn refuses(run: &mut Run, line: &Line, fault: Unlawful) -> bool {
    run.step(line) == Err(StepFault::Unlawful(fault)) && run.close() == Err(fault)
}

// claim link_model.Run.step.taken
// claim link_model.Run.close.whole
#[test]
fn a_whole_history(rt: HostRuntime) -> Result<(), Fail> {
    let mut run = new_run(rt.alloc())?;
    take(&mut run, lines(rt.alloc())?.as_slice())?;
    assert!(rt; run.close().is_ok());
    let surplus = Line::Idle { peer: 0 };
    assert!(rt; refuses(&mut run, &surplus, unlawful(10, Law::Order)));
    Ok(())
}

// claim link_model.Run.step.cause
// claim link_model.Run.close.whole
// claim link_model.Run.step.taken
#[test]
fn a_history_that_is_cut(rt: HostRuntime) -> Result<(), Fail> {
    let mut run = new_run(rt.alloc())?;
    assert!(rt; run.close() == Err(unlawful(1, Law::Order)));
    take(&mut run, lines(rt.alloc())?.get(..3).unwrap_or(&[]))?;
    assert!(rt; run.close() == Err(unlawful(4, Law::Order)));
    Ok(())
}

// claim link_model.Run.step.cause
// claim link_model.Run.step.again
#[test]
fn a_fault_stays(rt: HostRuntime) -> Result<(), Fail> {
    let mut run = new_run(rt.alloc())?;
    take(&mut run, lines(rt.alloc())?.get(..1).unwrap_or(&[]))?;
    for value in [7, 0] {
        let line = Line::Saw { peer: 0, value };
        assert!(rt; refuses(&mut run, &line, unlawful(2, Law::Link)), "{value}");
    }
    Ok(())
}

/// A struct without a lifetime that owns a run.
#[derive(Drop)]
struct Keeper {
    run: Run,
}

#[test]
fn a_step_is_a_function_pointer(rt: HostRuntime) -> Result<(), Fail> {
    let alloc = rt.alloc();
    let mut keeper = Keeper {
        run: new_run(alloc)?,
    };
    let step: fn(&mut Run, &Line) -> Result<(), StepFault> = Run::step;
    for line in lines(alloc)?.as_slice() {
        step(&mut keeper.run, line)?;
    }
    let surplus = Line::Idle { peer: 0 };
    let fault = unlawful(10, Law::Order);
    assert!(rt; step(&mut keeper.run, &surplus) == Err(StepFault::Unlawful(fault)));
    Ok(())
}
