//! What is told of a line, gathered in a buffer.

ghost use Rattle.std.specs.Prelude.{◌≡◌, ◌++◌, ◌∷◌, [], ◌≤◌, ℕ, false};
ghost use Rattle.std.specs.Prelude.{List, Ok, Err, IfOk, OnOk, OnErr, Some, length};
ghost use Rattle.dl_syntax.specs.declared.facts.Fact.{Fact};
ghost use Rattle.dl_syntax.specs.Names.{IsName, IsDeclarable};
ghost use Rattle.dl_syntax.specs.Ontology.{Declared};
ghost use Rattle.tcq_syntax.specs.Histories.{History};
ghost use Rattle.tcq_syntax.specs.Tcq.{Tcq};
ghost use Rattle.edge_io.specs.Lines.{text as text_line};
ghost use Rattle.stream_report.specs.Told.{item_of};
ghost use Rattle.snapshot_reader.specs.Said.{Said, names, says};
ghost use Rattle.snapshot_reader.specs.Answers.{Tells};
ghost use Rattle.report_text.specs.declared.event.Event.TheVariants as event;
ghost use Rattle.report_text.specs.Names.{AreSpelled, IsSpelledCause};
ghost use Rattle.report_text.specs.Events.{HasSizes, HasAnswers, IsSpelledEvent, EventHasNames};
ghost use Rattle.monitor_core.specs.Answering.{AreOver, AreRowsOf};
ghost use Rattle.monitor_core.specs.Keeping.{Monitored};
ghost use Rattle.monitor_core.specs.Standing.{setting_of, Stands};
ghost use Rattle.monitor_core.specs.Exchanging.{watched_of};
ghost use Rattle.watch_report.specs.Task.{own_setting, task_of};
ghost use Rattle.watch_report.specs.Told.{AreSizes, AreAskedSizes};
ghost use Rattle.watch_report.specs.Monitoring.{AreThere, HasTaken, TellsTaken, MonitorTells};
ghost use Rattle.watch_report.specs.Monitoring.{said_comes_to, line_comes_to, event_bytes};
ghost use Rattle.watch_report.specs.Report.{bytes_of_event, refused_in};
ghost use Rattle.watch_report.specs.Replies.{KeepsNames, IsRefusal, IsRefusedFor};
ghost use Rattle.watch_report.specs.Replies.{IsNameRefusedFor, Gathers, told_by};

use crate::options::Options;
use declaring::DeclareFault;
use dl_syntax::{Items, Memory, Name, Snapshot, Tuples};
use monitor_core::{AcceptFault, Monitor};
use report_text::{Cause, Event, append_event};
use snapshot_reader::{Reading, SnapFault, read_snapshot};
use std::alloc::Global;
use std::slice::from_ref;
use stream_report::GivenLine;

/// The cause for which a text is refused, unless memory ran out.
fn cause_of(fault: SnapFault) -> Result<Cause, Memory>
    ensures { IfOk result (λ cause. (what : Said) → Tells (Err fault) what →
        IsRefusedFor what cause) }
{
    match fault {
        SnapFault::Malformed => Ok(Cause::Malformed),
        SnapFault::Unknown(name) => Ok(Cause::Unknown(name)),
        SnapFault::WrongKind(name) => Ok(Cause::WrongKind(name)),
        SnapFault::Undeclared(name) => Ok(Cause::Undeclared(name)),
        SnapFault::TooManyFacts => Ok(Cause::TooManyFacts),
        SnapFault::Memory => Err(Memory),
    }
}

/// What is told of the line with this number, which was refused.
fn refused(line: u64, cause: Cause) -> Event
    ensures { result ≡ event.Refused line cause }
{
    Event::Refused { line, cause }
}

/// How much is kept of each query.
fn sizes_of(alloc: Global, monitor: &Monitor) -> Result<Items<u64>, Memory>
    ensures many { IfOk result (λ sizes. length sizes ≡ length (setting_of monitor.now).queries) }
    ensures sizes { IfOk result (λ sizes. (history : History) → Stands monitor.now history →
        AreSizes (own_setting monitor.now) history (setting_of monitor.now).queries sizes) }
{
    let count = monitor.queries().len();
    let mut sizes = Vec::with_capacity(alloc, count)?;
    for place in 0..count {
        let size = monitor.kept_size(alloc, place)?;
        sizes.push(size)?;
    }
    Ok(Items::from_vec(sizes))
}

/// How much is kept of each query, if that is asked for.
fn asked_sizes(
    alloc: Global,
    monitor: &Monitor,
    are_asked: bool,
) -> Result<Option<Items<u64>>, Memory>
    ensures many { IfOk result (λ kept. HasSizes (setting_of monitor.now).queries kept) }
    ensures there { IfOk result (AreThere are_asked (setting_of monitor.now).queries) }
    ensures sizes { IfOk result (λ kept. (history : History) → Stands monitor.now history →
        AreAskedSizes are_asked (own_setting monitor.now) history kept) }
{
    if !are_asked {
        return Ok(None);
    }
    match sizes_of(alloc, monitor) {
        Ok(sizes) => Ok(Some(sizes)),
        Err(fault) => Err(fault),
    }
}

/// What is told of the line with this number, which was accepted with these answers.
fn accepted(
    alloc: Global,
    options: Options,
    monitor: &Monitor,
    line: u64,
    answers: Vec<Tuples>,
) -> Result<Event, Memory>
    requires { AreRowsOf (setting_of monitor.now).ontology (setting_of monitor.now).queries
        answers.items }
    ensures answers { IfOk result
        (HasAnswers (setting_of monitor.now).ontology (setting_of monitor.now).queries) }
    ensures spelled { IfOk result IsSpelledEvent }
    ensures tells { IfOk result (λ event. (old : Monitored) (snapshot : List Fact) →
        HasTaken old monitor.now snapshot answers.items →
        TellsTaken options old monitor.now line snapshot (event ∷ [])) }
{
    match asked_sizes(alloc, monitor, options.sizes) {
        Ok(kept) => Ok(Event::Accepted {
            line,
            number: monitor.count(),
            answers: Items::from_vec(answers),
            kept,
        }),
        Err(fault) => Err(fault),
    }
}

/// What is told of the line with this number, whose snapshot was refused, unless memory ran out.
fn refusal(number: u64, fault: AcceptFault) -> Result<Event, Memory>
    ensures refuses { IfOk result (λ told. IsRefusal number fault told) }
    ensures answers { IfOk result (λ told. (ontology : Declared) (queries : List Tcq) →
        HasAnswers ontology queries told) }
    ensures spelled { IfOk result IsSpelledEvent }
{
    match fault {
        AcceptFault::Contradiction(clash) => Ok(refused(number, Cause::Contradiction(clash))),
        AcceptFault::Memory => Err(Memory),
    }
}

/// What is told of the line with this number, which says the snapshot.
fn take(
    alloc: Global,
    options: Options,
    monitor: &mut Monitor,
    number: u64,
    snapshot: &Snapshot,
) -> Result<Event, Memory>
    requires { AreOver (setting_of monitor.old).ontology snapshot.now }
    ensures setting { setting_of monitor.new ≡ setting_of monitor.old }
    ensures watched { watched_of monitor.new ≡ watched_of monitor.old }
    ensures own { own_setting monitor.new ≡ own_setting monitor.old }
    ensures answers { IfOk result
        (HasAnswers (setting_of monitor.old).ontology (setting_of monitor.old).queries) }
    ensures spelled { IfOk result IsSpelledEvent }
    ensures ok { IfOk result (λ event. MonitorTells options monitor.old number
        (said_comes_to monitor.old (says snapshot.now)) (event ∷ []) monitor.new) }
{
    match monitor.accept(alloc, snapshot) {
        Ok(answers) => accepted(alloc, options, monitor, number, answers),
        Err(fault) => refusal(number, fault),
    }
}

/// The cause for which a name is refused, unless memory ran out.
fn cause_of_name(fault: DeclareFault, name: Name) -> Result<Cause, Memory>
    ensures cause { IfOk result (IsNameRefusedFor name fault) }
    ensures spelled { IsName name → IfOk result IsSpelledCause }
{
    match fault {
        DeclareFault::Closed => Ok(Cause::Closed),
        DeclareFault::NameTwice(_) => Ok(Cause::NameTwice(name)),
        DeclareFault::TooMany(_) => Ok(Cause::TooMany),
        DeclareFault::TooLarge { total, .. } => Ok(Cause::TooLarge(total)),
        DeclareFault::Memory => Err(Memory),
    }
}

/// What is told of the line with this number, which declares an individual of this name.
fn declare(
    alloc: Global,
    options: Options,
    monitor: &mut Monitor,
    number: u64,
    name: Name,
) -> Result<Event, Memory>
    requires name { IsDeclarable name }
    requires queries { AreSpelled (setting_of monitor.old).queries }
    ensures own { own_setting monitor.new ≡ own_setting monitor.old }
    ensures closed { monitor.old.strangers ≡ false →
        watched_of monitor.new ≡ watched_of monitor.old }
    ensures err { OnErr result (setting_of monitor.new ≡ setting_of monitor.old) }
    ensures names { IfOk result (λ event.
        EventHasNames (setting_of monitor.new).ontology (setting_of monitor.new).queries event) }
    ensures ok { IfOk result (λ event. MonitorTells options monitor.old number
        (said_comes_to monitor.old (names name)) (event ∷ []) monitor.new) }
{
    match monitor.declare(alloc, from_ref(&name)) {
        Ok(()) => Ok(Event::Declared { line: number, name }),
        Err(fault) => match cause_of_name(fault, name) {
            Ok(cause) => Ok(refused(number, cause)),
            Err(fault) => Err(fault),
        },
    }
}

/// What is told of the line with this number and text, if anything is.
fn ask_text(
    alloc: Global,
    options: Options,
    monitor: &mut Monitor,
    number: u64,
    line: &[u8],
) -> Result<Option<Event>, Memory>
    requires { AreSpelled (setting_of monitor.old).queries }
    ensures own { own_setting monitor.new ≡ own_setting monitor.old }
    ensures closed { monitor.old.strangers ≡ false →
        watched_of monitor.new ≡ watched_of monitor.old }
    ensures err { OnErr result (setting_of monitor.new ≡ setting_of monitor.old) }
    ensures names { IfOk result
        (KeepsNames (setting_of monitor.old) (setting_of monitor.new)) }
    ensures ok { IfOk result (λ event. MonitorTells options monitor.old number
        (line_comes_to monitor.old options.form (text_line line.now)) (told_by event)
        monitor.new) }
{
    match read_snapshot(alloc, line, options.form, monitor.ontology()) {
        Ok(Reading::Skip) => Ok(None),
        Ok(Reading::Individual(name)) => match declare(alloc, options, monitor, number, name) {
            Ok(event) => Ok(Some(event)),
            Err(fault) => Err(fault),
        },
        Ok(Reading::Facts(snapshot)) => match take(alloc, options, monitor, number, &snapshot) {
            Ok(event) => Ok(Some(event)),
            Err(fault) => Err(fault),
        },
        Err(fault) => match cause_of(fault) {
            Ok(cause) => Ok(Some(refused(number, cause))),
            Err(fault) => Err(fault),
        },
    }
}

/// What is told of the line with this number, if anything is.
pub fn ask(
    alloc: Global,
    options: Options,
    monitor: &mut Monitor,
    number: u64,
    line: GivenLine<'_>,
) -> Result<Option<Event>, Memory>
    requires { AreSpelled (setting_of monitor.old).queries }
    ensures own { own_setting monitor.new ≡ own_setting monitor.old }
    ensures closed { monitor.old.strangers ≡ false →
        watched_of monitor.new ≡ watched_of monitor.old }
    ensures err { OnErr result (setting_of monitor.new ≡ setting_of monitor.old) }
    ensures names { IfOk result
        (KeepsNames (setting_of monitor.old) (setting_of monitor.new)) }
    ensures ok { IfOk result (λ event. MonitorTells options monitor.old number
        (line_comes_to monitor.old options.form (item_of line.entry)) (told_by event)
        monitor.new) }
{
    match line {
        GivenLine::Text(bytes) => ask_text(alloc, options, monitor, number, bytes),
        GivenLine::TooLong => Ok(Some(refused(number, Cause::TooLong))),
    }
}

/// How many lines an event refuses.
pub fn refusals(event: &Event) -> u64
    ensures small { result ≤ 1 }
    ensures exact { result ≡ refused_in (event.now ∷ []) }
{
    match event {
        Event::Refused { .. } => 1,
        Event::Accepted { .. } => 0,
        Event::Declared { .. } => 0,
        Event::End { .. } => 0,
    }
}

/// Gathers the bytes of an event, by the names that the monitor has.
pub fn gather(
    gathered: &mut Vec<u8>,
    options: Options,
    monitor: &Monitor,
    event: &Event,
) -> Result<(), Memory>
    requires { EventHasNames (setting_of monitor.now).ontology
        (setting_of monitor.now).queries event.now }
    ensures bytes { OnOk result (gathered.new.items
        ≡ gathered.old.items ++ event_bytes options monitor.now event.now) }
    ensures history { OnOk result ((history : History) → Stands monitor.now history →
        gathered.new.items ≡ gathered.old.items
        ++ bytes_of_event (task_of options monitor.now) history event.now) }
{
    append_event(
        gathered,
        event,
        options.report,
        monitor.ontology(),
        monitor.queries(),
    )
}

/// Gathers what is told of the line with this number, and answers how many lines were refused.
pub fn tell(
    alloc: Global,
    options: Options,
    monitor: &mut Monitor,
    number: u64,
    line: GivenLine<'_>,
    gathered: &mut Vec<u8>,
) -> Result<u64, Memory>
    requires { AreSpelled (setting_of monitor.old).queries }
    ensures own { own_setting monitor.new ≡ own_setting monitor.old }
    ensures closed { monitor.old.strangers ≡ false →
        watched_of monitor.new ≡ watched_of monitor.old }
    ensures small { IfOk result (λ refused. refused ≤ 1) }
    ensures ok { IfOk result (Gathers options monitor.old monitor.new (item_of line.entry) number
        gathered.old.items gathered.new.items) }
{
    match ask(alloc, options, monitor, number, line) {
        Ok(None) => Ok(0),
        Ok(Some(event)) => match gather(gathered, options, monitor, &event) {
            Ok(()) => Ok(refusals(&event)),
            Err(fault) => Err(fault),
        },
        Err(fault) => Err(fault),
    }
}
