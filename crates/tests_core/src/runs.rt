ghost use Rattle.dr_core.specs.Run.{FitsStep};

use dr_ask::Query;
use dr_core::{Reply, Step, run_core, run_core_one};
use dr_events::read_event;
use dr_merge::Purpose;
use dr_spec::IngestSpec;
use dr_timeline::OpenGate;
use std::alloc::{AllocError, Global};
use std::marker::Model;
use std::sync::Wait;
use std::test::Fail;
use std::thread::Threads;

const SPEC: &str =
    r#"{"dataSchema":{"dataSource":"w","timestampSpec":{"column":"t","format":"iso"},"dimensionsSpec":{"dimensions":["page"]},"metricsSpec":[{"type":"longSum","name":"added","fieldName":"a"}],"granularitySpec":{"segmentGranularity":"day","queryGranularity":"none"}},"tuningConfig":{"maxCommits":1}}"#;

/// The start of the day of the events.
const DAY: i64 = 1_704_067_200_000;

/// Two events of one key, one of another, and the first key twice more.
const EVENTS: [&str; 5] = [
    r#"{"t":"2024-01-01T00:10:00Z","page":"A","a":5}"#,
    r#"{"t":"2024-01-01T00:10:00Z","page":"A","a":7}"#,
    r#"{"t":"2024-01-01T01:30:00Z","page":"B","a":-2}"#,
    r#"{"t":"2024-01-01T00:10:00Z","page":"A","a":1}"#,
    r#"{"t":"2024-01-01T00:10:00Z","page":"A","a":100}"#,
];

/// The bits of the events in a choice of seals.
const BITS: [usize; 5] = [1, 2, 4, 8, 16];

/// Two dimensions and a metric of each kind, rolled up by hour.
const HOURS: &str =
    r#"{"dataSchema":{"dataSource":"w","timestampSpec":{"column":"t","format":"iso"},"dimensionsSpec":{"dimensions":["page","lang"]},"metricsSpec":[{"type":"count","name":"n"},{"type":"longSum","name":"added","fieldName":"a"},{"type":"longMin","name":"lo","fieldName":"a"},{"type":"longMax","name":"hi","fieldName":"a"}],"granularitySpec":{"segmentGranularity":"day","queryGranularity":"hour"}}}"#;

/// Two events of one hour and key, one of the next hour.
const THREE: [&str; 3] = [
    r#"{"t":"2024-01-01T00:10:00Z","page":"A","lang":"en","a":5}"#,
    r#"{"t":"2024-01-01T00:50:00Z","page":"A","lang":"en","a":7}"#,
    r#"{"t":"2024-01-01T01:30:00Z","page":"B","lang":"en","a":-2}"#,
];

/// Sums and the number of rows, hour by hour.
const BY_HOUR: &str =
    r#"{"queryType":"timeseries","dataSource":"w","intervals":["2024-01-01/2024-01-02"],"granularity":"hour","aggregations":[{"type":"longSum","name":"added","fieldName":"added"},{"type":"longSum","name":"n","fieldName":"n"},{"type":"count","name":"cnt"}]}"#;

/// The sum of the added, whatever the rows.
const ADDED: &str =
    r#"{"queryType":"timeseries","dataSource":"w","intervals":["2024-01-01/2024-01-02"],"granularity":"all","aggregations":[{"type":"longSum","name":"added","fieldName":"added"}]}"#;

/// How many rows there are.
const ROWS: &str =
    r#"{"queryType":"timeseries","dataSource":"w","intervals":["2024-01-01/2024-01-02"],"granularity":"all","aggregations":[{"type":"count","name":"cnt"}]}"#;

/// The pages with what was added, row by row.
const PAGES: &str =
    r#"{"queryType":"scan","dataSource":"w","intervals":["2024-01-01/2024-01-02"],"columns":["page","added"],"resultFormat":"compactedList"}"#;

/// Steps that may be taken over a spec. A contract sees the spec.
#[derive(Drop)]
struct Steps {
    spec: IngestSpec,
    list: Vec<Step>,
}

impl Model for Steps {
    ghost use Rattle.std.specs.List.{AllByRecursion};
    ghost use Rattle.dr_schema.specs.declared.schema.Schema.{Schema};
    ghost use Rattle.dr_core.specs.Run.{FitsStep};

    ghost Value = { Schema };

    ghost view = { λ s. s.spec };

    ghost invariant = { λ s. AllByRecursion (FitsStep s.spec) s.list.items };
}

impl Steps {
    fn new(alloc: Global) -> Result<Steps, Fail> {
        Steps::over(alloc, SPEC)
    }

    fn over(alloc: Global, spec: &str) -> Result<Steps, Fail> {
        let spec = IngestSpec::parse(alloc, spec.as_bytes())?;
        Ok(Steps {
            spec,
            list: Vec::new(alloc),
        })
    }

    #[tactic(auto, using(dr_cuts::proofs::Each::all_push))]
    fn push(&mut self, step: Step) -> Result<(), AllocError>
        requires { FitsStep self.old step }
    {
        self.list.push(step)?;
        Ok(())
    }

    fn accept(&mut self, alloc: Global, event: &str) -> Result<(), Fail> {
        let event = read_event(alloc, &self.spec, 0, event.as_bytes())?;
        Ok(self.push(Step::Accept(event))?)
    }

    fn seal(&mut self) -> Result<(), Fail> {
        Ok(self.push(Step::Seal(DAY))?)
    }

    fn plan(&mut self, lo: usize, hi: usize) -> Result<(), Fail> {
        Ok(self.push(Step::Plan(DAY, lo, hi, Purpose::Merge))?)
    }

    fn commit(&mut self, job: usize) -> Result<(), Fail> {
        Ok(self.push(Step::Commit(job))?)
    }

    fn pin(&mut self) -> Result<(), Fail> {
        Ok(self.push(Step::Pin)?)
    }

    fn ask(&mut self, alloc: Global, pin: usize, query: &str) -> Result<(), Fail> {
        let query = Query::parse(alloc, query.as_bytes(), self.spec.schema())?;
        Ok(self.push(Step::Ask(pin, query))?)
    }

    fn audit(&mut self, alloc: Global, pin: usize, query: &str) -> Result<(), Fail> {
        let query = Query::parse(alloc, query.as_bytes(), self.spec.schema())?;
        Ok(self.push(Step::Audit(pin, query))?)
    }

    fn run(self, alloc: Global) -> Result<Vec<Reply>, Fail> {
        Ok(run_core_one(alloc, self.spec, self.list.as_slice())?)
    }

    /// The replies where queries are answered by so many workers.
    fn run_by<R: Threads + Wait + Sync>(
        self,
        rt: &R,
        alloc: Global,
        workers: usize,
    ) -> Result<Vec<Reply>, Fail> {
        Ok(run_core(
            rt,
            alloc,
            self.spec,
            self.list.as_slice(),
            workers,
            &OpenGate,
        )?)
    }
}

/// A reply in few letters: `a0`, `sealed`, `job 0`, `v0`, `pin 0`, the text of an answer, `refused 93`, `no such`.
fn told(alloc: Global, reply: &Reply) -> Result<String, Fail> {
    let text = match reply {
        Reply::Accepted(number) => format!(in alloc; "a{number}")?,
        Reply::Sealed => format!(in alloc; "sealed")?,
        Reply::Job(number) => format!(in alloc; "job {number}")?,
        Reply::Committed(version) => format!(in alloc; "v{version}")?,
        Reply::Pinned(number) => format!(in alloc; "pin {number}")?,
        Reply::Answer(text) => text_of(alloc, text.as_slice())?,
        Reply::Refused(number) => format!(in alloc; "refused {number}")?,
        Reply::NoSuch => format!(in alloc; "no such")?,
    };
    Ok(text)
}

fn text_of(alloc: Global, text: &[u8]) -> Result<String, Fail> {
    let copy = text.to_vec(alloc)?;
    Ok(String::from_utf8(copy)?)
}

/// The replies, with `; ` between them.
fn replies_of(alloc: Global, replies: &[Reply]) -> Result<String, Fail> {
    let mut text = String::new(alloc);
    for reply in replies {
        let word = told(alloc, reply)?;
        text = format!(in alloc; "{text}{word}; ")?;
    }
    Ok(text)
}

/// Five events, each followed by a seal where its bit is set, and a job over the first two ranges that is planned behind
/// the event of one number and committed behind that of another; at the end the sum is asked, and audited.
fn five_events(
    alloc: Global,
    seals: usize,
    planned: usize,
    committed: usize,
) -> Result<Steps, Fail> {
    let mut steps = Steps::new(alloc)?;
    for (i, event) in EVENTS.iter().enumerate() {
        steps.accept(alloc, event)?;
        cut(&mut steps, i, seals, planned, committed)?;
    }
    ask_at_the_end(alloc, &mut steps)?;
    Ok(steps)
}

fn is_sealed(seals: usize, place: usize) -> bool {
    match BITS.get(place) {
        Some(bit) => seals & *bit != 0,
        None => false,
    }
}

fn cut(
    steps: &mut Steps,
    place: usize,
    seals: usize,
    planned: usize,
    committed: usize,
) -> Result<(), Fail> {
    if is_sealed(seals, place) {
        steps.seal()?;
    }
    if planned == place {
        steps.plan(0, 2)?;
    }
    if committed == place {
        steps.commit(0)?;
    }
    Ok(())
}

fn ask_at_the_end(alloc: Global, steps: &mut Steps) -> Result<(), Fail> {
    steps.pin()?;
    steps.ask(alloc, 0, ADDED)?;
    steps.audit(alloc, 0, ADDED)
}

/// The last two replies, which are an answer and the plain program of the raw answer.
fn last_two(alloc: Global, replies: &[Reply]) -> Result<String, Fail> {
    let from = replies.len().saturating_sub(2);
    replies_of(alloc, &replies[from..])
}

/// 32 choices of seals by 5 places to plan at by 5 places to commit at: 800 lists of steps, of which those that commit
/// before they plan name no job.
#[test]
fn answers_are_raw_wherever_seals_and_merges_fall(rt: HostRuntime) -> Result<(), Fail> {
    for cuts in 0..800 {
        let steps = five_events(rt.alloc(), cuts % 32, cuts / 32 % 5, cuts / 160)?;
        let told = last_two(rt.alloc(), &steps.run(rt.alloc())?)?;
        let raw =
            r#"[{"result":{"added":111},"timestamp":"2024-01-01T00:00:00.000Z"}]; [{"result":{"added":111},"timestamp":"2024-01-01T00:00:00.000Z"}]; "#;
        assert_eq!(rt; told.as_str(), raw, "cuts {cuts}");
    }
    Ok(())
}

/// Two ranges, and two jobs over them before a merge.
fn merge_before_two_pins(alloc: Global, steps: &mut Steps) -> Result<(), Fail> {
    steps.accept(alloc, EVENTS[0])?;
    steps.seal()?;
    steps.accept(alloc, EVENTS[1])?;
    steps.pin()?;
    steps.seal()?;
    steps.plan(0, 2)?;
    steps.plan(0, 2)?;
    steps.commit(0)?;
    steps.pin()
}

/// Answers of both pins, and refusals: a stale job, places that aren't there, nothing to seal, no such job or pin.
fn asks_and_refusals(alloc: Global, steps: &mut Steps) -> Result<(), Fail> {
    steps.ask(alloc, 0, ROWS)?;
    steps.ask(alloc, 1, ROWS)?;
    steps.audit(alloc, 1, ROWS)?;
    steps.commit(1)?;
    steps.plan(0, 2)?;
    steps.seal()?;
    steps.commit(2)?;
    steps.ask(alloc, 2, ADDED)
}

/// A sealed range and an open one, of which the sum is asked.
fn two_ranges(alloc: Global, steps: &mut Steps) -> Result<(), Fail> {
    steps.accept(alloc, EVENTS[0])?;
    steps.seal()?;
    steps.accept(alloc, EVENTS[1])?;
    steps.accept(alloc, EVENTS[2])?;
    steps.pin()?;
    steps.ask(alloc, 0, ADDED)
}

/// The replies over two ranges, by one thread or by workers.
fn replies_over_two<R: Threads + Wait + Sync>(
    rt: &R,
    alloc: Global,
    by_workers: bool,
) -> Result<String, Fail> {
    let mut steps = Steps::new(alloc)?;
    two_ranges(alloc, &mut steps)?;
    let replies = if by_workers {
        steps.run_by(rt, alloc, 3)?
    } else {
        steps.run(alloc)?
    };
    replies_of(alloc, &replies)
}

#[test]
fn workers_reply_as_one_thread_does(rt: HostRuntime) -> Result<(), Fail> {
    let wanted =
        r#"a0; sealed; a1; a2; pin 0; [{"result":{"added":10},"timestamp":"2024-01-01T00:00:00.000Z"}]; "#;
    let told = replies_over_two(&rt, rt.alloc(), false)?;
    assert_eq!(rt; told.as_str(), wanted);
    let told = replies_over_two(&rt, rt.alloc(), true)?;
    assert_eq!(rt; told.as_str(), wanted);
    Ok(())
}

/// A range that is sealed behind the first event, and an open one, asked hour by hour.
fn hours(alloc: Global) -> Result<Steps, Fail> {
    let mut steps = Steps::over(alloc, HOURS)?;
    steps.accept(alloc, THREE[0])?;
    steps.seal()?;
    steps.accept(alloc, THREE[1])?;
    steps.accept(alloc, THREE[2])?;
    steps.pin()?;
    steps.ask(alloc, 0, BY_HOUR)?;
    Ok(steps)
}

/// The replies hour by hour, by one thread or by two workers.
fn replies_by_hour<R: Threads + Wait + Sync>(
    rt: &R,
    alloc: Global,
    by_workers: bool,
) -> Result<String, Fail> {
    let steps = hours(alloc)?;
    let replies = if by_workers {
        steps.run_by(rt, alloc, 2)?
    } else {
        steps.run(alloc)?
    };
    replies_of(alloc, &replies)
}

#[test]
fn replies_hour_by_hour(rt: HostRuntime) -> Result<(), Fail> {
    let wanted =
        r#"a0; sealed; a1; a2; pin 0; [{"result":{"added":12,"cnt":2,"n":2},"timestamp":"2024-01-01T00:00:00.000Z"},{"result":{"added":-2,"cnt":1,"n":1},"timestamp":"2024-01-01T01:00:00.000Z"}]; "#;
    let told = replies_by_hour(&rt, rt.alloc(), false)?;
    assert_eq!(rt; told.as_str(), wanted);
    let told = replies_by_hour(&rt, rt.alloc(), true)?;
    assert_eq!(rt; told.as_str(), wanted);
    Ok(())
}

/// Refusals, scans and audits by workers.
fn replies_by_workers<R: Threads + Wait + Sync>(rt: &R, alloc: Global) -> Result<String, Fail> {
    let mut steps = Steps::new(alloc)?;
    merge_before_two_pins(alloc, &mut steps)?;
    asks_and_refusals(alloc, &mut steps)?;
    replies_of(alloc, &steps.run_by(rt, alloc, 3)?)
}

#[test]
fn replies_to_each_step_by_workers(rt: HostRuntime) -> Result<(), Fail> {
    let told = replies_by_workers(&rt, rt.alloc())?;
    let wanted =
        r#"a0; sealed; a1; pin 0; sealed; job 0; job 1; v0; pin 1; [{"result":{"cnt":2},"timestamp":"2024-01-01T00:00:00.000Z"}]; [{"result":{"cnt":1},"timestamp":"2024-01-01T00:00:00.000Z"}]; [{"result":{"cnt":2},"timestamp":"2024-01-01T00:00:00.000Z"}]; refused 93; refused 92; refused 91; no such; no such; "#;
    assert_eq!(rt; told.as_str(), wanted);
    Ok(())
}

/// Scans of both pins, and an audit of one, which there isn't.
fn scans(alloc: Global, steps: &mut Steps) -> Result<(), Fail> {
    steps.ask(alloc, 0, PAGES)?;
    steps.ask(alloc, 1, PAGES)?;
    steps.audit(alloc, 1, PAGES)?;
    steps.ask(alloc, 2, PAGES)
}

#[test]
fn scans_are_those_of_the_snapshots(rt: HostRuntime) -> Result<(), Fail> {
    let mut steps = Steps::new(rt.alloc())?;
    merge_before_two_pins(rt.alloc(), &mut steps)?;
    scans(rt.alloc(), &mut steps)?;
    let told = replies_of(rt.alloc(), &steps.run(rt.alloc())?)?;
    let wanted =
        r#"a0; sealed; a1; pin 0; sealed; job 0; job 1; v0; pin 1; [{"columns":["page","added"],"events":[["A",5]],"segmentId":"w_2024-01-01T00:00:00.000Z_2024-01-02T00:00:00.000Z_r"},{"columns":["page","added"],"events":[["A",7]],"segmentId":"w_2024-01-01T00:00:00.000Z_2024-01-02T00:00:00.000Z_r_1"}]; [{"columns":["page","added"],"events":[["A",12]],"segmentId":"w_2024-01-01T00:00:00.000Z_2024-01-02T00:00:00.000Z_r"}]; no such; no such; "#;
    assert_eq!(rt; told.as_str(), wanted);
    Ok(())
}

#[test]
fn replies_to_each_step(rt: HostRuntime) -> Result<(), Fail> {
    let mut steps = Steps::new(rt.alloc())?;
    merge_before_two_pins(rt.alloc(), &mut steps)?;
    asks_and_refusals(rt.alloc(), &mut steps)?;
    let told = replies_of(rt.alloc(), &steps.run(rt.alloc())?)?;
    let wanted =
        r#"a0; sealed; a1; pin 0; sealed; job 0; job 1; v0; pin 1; [{"result":{"cnt":2},"timestamp":"2024-01-01T00:00:00.000Z"}]; [{"result":{"cnt":1},"timestamp":"2024-01-01T00:00:00.000Z"}]; [{"result":{"cnt":2},"timestamp":"2024-01-01T00:00:00.000Z"}]; refused 93; refused 92; refused 91; no such; no such; "#;
    assert_eq!(rt; told.as_str(), wanted);
    Ok(())
}
