//! The answers of calls of the libraries below the top call: readers of texts, ends of the
//! link, and pictures.
use crate::answers::{Answer, Question};
use crate::ends;
use ivs_base::NoMemory;
use record_text::{Reader, RecordFault};
use scenario_text::MOST_LOAD;
use std::alloc::Global;
use std::fmt::Debug;
use std::io;
use std::io::ErrorKind;

/// Returns the wanted bytes: status 0.
fn answered(bytes: Result<Vec<u8>, NoMemory>) -> io::Result<Answer> {
    let output = bytes.map_err(|_| ErrorKind::OutOfMemory)?;
    Ok(Answer {
        status: 0,
        output,
        has_run: false,
    })
}

/// Returns the name of a fault: status 1.
fn refused<E: Debug>(alloc: Global, fault: &E) -> io::Result<Answer> {
    let text = format!(in alloc; "{fault:?}\n")?;
    Ok(Answer {
        status: 1,
        output: text.into_bytes(),
        has_run: false,
    })
}

/// Reads a scenario and prints it.
fn scenario(alloc: Global, input: &[u8]) -> io::Result<Answer> {
    match scenario_text::parse(alloc, input) {
        Ok(scenario) => answered(scenario_text::print(alloc, &scenario)),
        Err(fault) => refused(alloc, &fault),
    }
}

/// Returns the first line of a scenario that the running form doesn't allow.
fn running(alloc: Global, input: &[u8]) -> io::Result<Answer> {
    let scenario = match scenario_text::parse(alloc, input) {
        Ok(scenario) => scenario,
        Err(fault) => return refused(alloc, &fault),
    };
    let text = match scenario_text::not_running(&scenario) {
        Some(line) => format!(in alloc; "line {line}\n")?,
        None => String::from_str(alloc, "runs\n")?,
    };
    answered(Ok(text.into_bytes()))
}

/// Makes the scenario of a load of `count` frames and prints it.
fn load(alloc: Global, count: u32) -> io::Result<Answer> {
    let scenario = scenario_text::load(alloc, count.clamp(1, MOST_LOAD)).map_err(
        |_| ErrorKind::OutOfMemory,
    )?;
    answered(scenario_text::print(alloc, &scenario))
}

/// Returns the number of acts of a scenario; a turn counts for its steps.
fn cost(alloc: Global, input: &[u8]) -> io::Result<Answer> {
    let scenario = match scenario_text::parse(alloc, input) {
        Ok(scenario) => scenario,
        Err(fault) => return refused(alloc, &fault),
    };
    let mut all = 0u64;
    for act in scenario.acts.items() {
        all = all.saturating_add(act.cost());
    }
    answered(Ok(format!(in alloc; "{all}\n")?.into_bytes()))
}

/// Reads a scenario, and prints its honest peers and its acts.
fn acts(alloc: Global, input: &[u8]) -> io::Result<Answer> {
    let scenario = match scenario_text::parse(alloc, input) {
        Ok(scenario) => scenario,
        Err(fault) => return refused(alloc, &fault),
    };
    let honest = scenario.honest.items();
    let mut text = format!(in alloc; "honest {honest:?}\n")?;
    for act in scenario.acts.items() {
        write!(text, "{act:?}\n")?;
    }
    answered(Ok(text.into_bytes()))
}

/// Reads a record and prints it.
fn record(alloc: Global, input: &[u8]) -> io::Result<Answer> {
    match record_text::parse(alloc, input) {
        Ok(trace) => answered(record_text::print(alloc, &trace)),
        Err(fault) => refused(alloc, &fault),
    }
}

/// Returns the number of history lines that a reader reads of a record, one by one.
fn lines_read(alloc: Global, input: &[u8]) -> Result<u64, RecordFault> {
    let (_, _, mut reader) = Reader::begin(alloc, input)?;
    let mut count = 0u64;
    for _ in 0..u64::MAX {
        match reader.next(alloc)? {
            Some(_) => count = count.saturating_add(1),
            None => break,
        }
    }
    Ok(count)
}

/// Reads a record line by line, and prints the number of its history lines.
fn reader(alloc: Global, input: &[u8]) -> io::Result<Answer> {
    match lines_read(alloc, input) {
        Ok(count) => answered(Ok(format!(in alloc; "{count} lines\n")?.into_bytes())),
        Err(fault) => refused(alloc, &fault),
    }
}

/// Reads a record, and prints its version and its lines.
fn lines(alloc: Global, input: &[u8]) -> io::Result<Answer> {
    let trace = match record_text::parse(alloc, input) {
        Ok(trace) => trace,
        Err(fault) => return refused(alloc, &fault),
    };
    let version = trace.version;
    let mut text = format!(in alloc; "version {version}\n")?;
    for line in trace.lines.items() {
        write!(text, "{line:?}\n")?;
    }
    answered(Ok(text.into_bytes()))
}

/// Reads a schedule of ports, and prints its sizes and its acts.
fn port_acts(alloc: Global, input: &[u8]) -> io::Result<Answer> {
    let scenario = match port_text::parse(alloc, input) {
        Ok(scenario) => scenario,
        Err(fault) => return refused(alloc, &fault),
    };
    let (words, most) = (scenario.geometry.out_words(), scenario.most);
    let mut text = format!(in alloc; "out words {words}\nmost {most}\n")?;
    for act in scenario.acts.items() {
        write!(text, "{act:?}\n")?;
    }
    answered(Ok(text.into_bytes()))
}

/// Reads a schedule of ports and prints it.
fn port_schedule(alloc: Global, input: &[u8]) -> io::Result<Answer> {
    let scenario = match port_text::parse(alloc, input) {
        Ok(scenario) => scenario,
        Err(fault) => return refused(alloc, &fault),
    };
    let mut text = Vec::new(alloc);
    port_text::put_scenario(&mut text, &scenario)?;
    answered(Ok(text))
}

/// Reads a run of a bridge, and prints its contents.
fn bridge_run(alloc: Global, input: &[u8]) -> io::Result<Answer> {
    let script = match frame_bridge::parse(alloc, input) {
        Ok(script) => script,
        Err(fault) => return refused(alloc, &fault),
    };
    let (ports, rounds) = (script.ports, script.rounds);
    let mut text = format!(in alloc; "ports {ports}\nrounds {rounds}\n")?;
    for sent in script.sent.items() {
        let port = sent.port;
        let digits = hex::encode(alloc, sent.frame.bytes())?;
        let digits = digits.as_str();
        write!(text, "frame {port} {digits}\n")?;
    }
    answered(Ok(text.into_bytes()))
}

/// Returns the rows and arrows of a picture of lines of a record, at most the greatest number of
/// rows.
fn picture(alloc: Global, input: &[u8], first: u32, last: u32) -> io::Result<Answer> {
    let trace = match record_text::parse(alloc, input) {
        Ok(trace) => trace,
        Err(fault) => return refused(alloc, &fault),
    };
    let picture = record_chart::picture_of(
        alloc,
        &trace,
        u64::from(first.max(1)),
        u64::from(last),
    ).map_err(|_| ErrorKind::OutOfMemory)?;
    let mut text = String::new(alloc);
    for row in &picture.rows {
        let (first, count) = (row.first, row.count);
        write!(text, "row {first} {count}\n")?;
    }
    for arrow in &picture.arrows {
        let (from, to) = (arrow.from, arrow.to);
        write!(text, "arrow {from} {to}\n")?;
    }
    let left_out = picture.left_out;
    write!(text, "left out {left_out}\n")?;
    answered(Ok(text.into_bytes()))
}

/// Returns the text of a picture of lines of a record, for a terminal. `differs` is the line to be
/// marked, or 0.
fn picture_text(
    alloc: Global,
    input: &[u8],
    first: u32,
    last: u32,
    differs: u32,
) -> io::Result<Answer> {
    let trace = match record_text::parse(alloc, input) {
        Ok(trace) => trace,
        Err(fault) => return refused(alloc, &fault),
    };
    let first = u64::from(first.max(1));
    let picture = record_chart::picture_of(alloc, &trace, first, u64::from(last)).map_err(
        |_| ErrorKind::OutOfMemory,
    )?;
    let differs = if differs == 0 {
        None
    } else {
        Some(u64::from(differs))
    };
    let total = trace.lines.items().len() as u64;
    let text = record_chart::draw_text(alloc, &trace, total, first, &picture, differs);
    answered(Ok(text.map_err(|_| ErrorKind::OutOfMemory)?))
}

/// Reads a capture file and prints it.
fn capture_file(alloc: Global, input: &[u8]) -> io::Result<Answer> {
    match frame_capture::parse(alloc, input) {
        Ok(capture) => answered(frame_capture::print(alloc, &capture)),
        Err(fault) => refused(alloc, &fault),
    }
}

/// Returns the number in word `place`, or 0 if there is none.
fn number(words: &[String], place: usize) -> u32 {
    match words.get(place) {
        Some(word) => word.as_str().parse::<u32>().unwrap_or(0),
        None => 0,
    }
}

/// Returns the answer of the call that the first word names.
pub(crate) fn answer(alloc: Global, question: &Question) -> io::Result<Answer> {
    let words = question.words.as_slice();
    let input = question.input.as_slice();
    let name = match words.first() {
        Some(word) => word.as_str(),
        None => "",
    };
    match name {
        "scenario" => scenario(alloc, input),
        "running" => running(alloc, input),
        "load" => load(alloc, number(words, 1)),
        "cost" => cost(alloc, input),
        "acts" => acts(alloc, input),
        "lines" => lines(alloc, input),
        "port_acts" => port_acts(alloc, input),
        "record" => record(alloc, input),
        "reader" => reader(alloc, input),
        "port_schedule" => port_schedule(alloc, input),
        "bridge_run" => bridge_run(alloc, input),
        "ends" => answered(Ok(ends::lines(alloc, input, number(words, 1), number(words, 2))?)),
        "picture" => picture(alloc, input, number(words, 1), number(words, 2)),
        "picture_text" => picture_text(
            alloc,
            input,
            number(words, 1),
            number(words, 2),
            number(words, 3),
        ),
        "capture_file" => capture_file(alloc, input),
        _ => Err(io::Error::from(ErrorKind::InvalidInput)),
    }
}
