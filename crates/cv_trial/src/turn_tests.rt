//! Two jobs that are stepped by turns over one store: what is sent back, and for which touch.
use cv_core::{Core, SoloStore};
use cv_json::to_json;
use cv_run::RunJob;
use cv_stand::{Event, read_script};
use cv_store::{Job, JobWent, Runs};
use cv_values::{Fields, Memory, Text};
use fn_load::{Program, load};
use fn_tree::{Call, Query, Reply};
use std::alloc::Global;
use std::marker::Model;
use std::test::Fail;

// A store of a program, and two jobs with their calls.
#[derive(Drop)]
struct Two {
    program: Program,
    store: SoloStore,
    first: RunJob,
    first_call: Call,
    second: RunJob,
    second_call: Call,
    runs: Runs,
}

impl Model for Two {
    ghost use Rattle.std.specs.Prelude.{◌≡◌, ℕ};
    ghost use Rattle.std.specs.Coded.{coded_ℕ};
    ghost use Rattle.cv_core.specs.Cores.{program_of};
    ghost use Rattle.cv_core.specs.Solos.{stands_of};
    ghost use Rattle.cv_run.specs.Unders.{under_job};
    ghost use Rattle.cv_store.specs.Jobs.{GoesOnOver};
    ghost use Rattle.fn_tree.specs.SyntaxViews.{module_view};

    ghost Value = { ℕ };

    ghost coded = { coded_ℕ };

    ghost view = { λ s. s.runs.count };

    ghost invariant = { λ s. (module_view s.program.checked.tree ≡ program_of s.store.core)
        × GoesOnOver (under_job s.first) (stands_of s.store) s.first_call
        × GoesOnOver (under_job s.second) (stands_of s.store) s.second_call };
}

fn no_call(alloc: Global) -> Result<Call, Memory> {
    Ok(Call {
        session: 0,
        request: 0,
        udf: Text::of(alloc, "")?,
        args: Fields::new(alloc),
        now: 0,
    })
}

// Two jobs at a begin over a store with an empty log.
fn open(alloc: Global, module: &str) -> Result<Two, Fail> {
    let first_call = no_call(alloc)?;
    let second_call = no_call(alloc)?;
    let Ok(program) = load(alloc, module.as_bytes()) else {
        return Err(Fail::from("no program"));
    };
    let core = Core::new(alloc, program.checked.copy(alloc)?)?;
    Ok(Two {
        program,
        store: SoloStore::new(core),
        first: RunJob::new(alloc),
        first_call,
        second: RunJob::new(alloc),
        second_call,
        runs: Runs { count: 0 },
    })
}

impl Two {
    fn begin_first(&mut self, alloc: Global, call: Call) {
        self.first = RunJob::new(alloc);
        self.first_call = call;
    }

    fn begin_second(&mut self, alloc: Global, call: Call) {
        self.second = RunJob::new(alloc);
        self.second_call = call;
    }

    fn step_first(&mut self, alloc: Global) -> Result<JobWent, Memory> {
        self.first.step(
            alloc,
            &self.program,
            &mut self.store,
            &self.first_call,
            &mut self.runs,
        )
    }

    fn step_second(&mut self, alloc: Global) -> Result<JobWent, Memory> {
        self.second.step(
            alloc,
            &self.program,
            &mut self.store,
            &self.second_call,
            &mut self.runs,
        )
    }

    // Runs a call to its end.
    fn play(&mut self, alloc: Global, call: Call) -> Result<(), Fail> {
        self.begin_first(alloc, call);
        for _turn in 0..20u32 {
            if let JobWent::Done { .. } = self.step_first(alloc)? {
                return Ok(());
            }
        }
        Err(Fail::from("no end"))
    }

    // The answer of a query at the end of the log, and how many intervals its run read.
    fn answer(&mut self, alloc: Global, query: &Query) -> Result<(Reply, usize), Memory> {
        let end = self.store.core().len();
        let answered = self.first.answer(
            alloc,
            &self.program,
            &mut self.store,
            query,
            end,
            &mut self.runs,
        );
        let (reply, reads) = answered?;
        Ok((reply, reads.len()))
    }
}

fn reply_told(alloc: Global, ts: u64, reply: &Reply) -> Result<String, Fail> {
    match reply {
        Reply::Value(value) => {
            let json = to_json(alloc, value)?.to_string(alloc)?;
            Ok(format!(in alloc; "done {ts} {json};")?)
        }
        Reply::Failed(why) => {
            let why = why.as_str();
            Ok(format!(in alloc; "failed {ts} {why};")?)
        }
    }
}

// What a step tells, unless it only moved on.
fn told(alloc: Global, went: &JobWent) -> Result<String, Fail> {
    match went {
        JobWent::Moved => Ok(String::new(alloc)),
        JobWent::SentBack(c) => {
            let document = if c.fresh { "new" } else { "old" };
            Ok(format!(in alloc;
                "back {} write {} {document} index {} range {};",
                c.ts, c.write, c.index, c.range
            )?)
        }
        JobWent::Done { ts, reply } => reply_told(alloc, *ts, reply),
    }
}

// The call of a line.
fn call_of(alloc: Global, line: &str) -> Result<Call, Fail> {
    let script = read_script(alloc, line.as_bytes(), 1)?;
    match script.events.into_iter().next() {
        Some(
            (
                _,
                Event::Call {
                    session,
                    request,
                    udf,
                    args,
                },
            ),
        ) => Ok(Call {
            session,
            request,
            udf,
            args,
            now: 0,
        }),
        _ => Err(Fail::from("no call")),
    }
}

// What two calls tell that are stepped by turns behind these calls: 1 is a step of the first, 2 of the
// second.
fn by_turns(
    alloc: Global,
    module: &str,
    before: &[&str],
    first: &str,
    second: &str,
    turns: &str,
) -> Result<String, Fail> {
    let mut two = open(alloc, module)?;
    for line in before {
        two.play(alloc, call_of(alloc, line)?)?;
    }
    two.begin_first(alloc, call_of(alloc, first)?);
    two.begin_second(alloc, call_of(alloc, second)?);
    let mut text = String::new(alloc);
    for turn in turns.as_bytes() {
        let went = match turn {
            b'1' => two.step_first(alloc)?,
            _ => two.step_second(alloc)?,
        };
        text.push_str(&told(alloc, &went)?)?;
    }
    Ok(text)
}

// What a query answers behind these calls, and what it read and ran for it.
fn asked(alloc: Global, module: &str, before: &[&str], query: &Query) -> Result<String, Fail> {
    let mut two = open(alloc, module)?;
    for line in before {
        two.play(alloc, call_of(alloc, line)?)?;
    }
    let (reply, reads) = two.answer(alloc, query)?;
    let text = reply_told(alloc, two.store.core().len(), &reply)?;
    let runs = two.runs.count;
    Ok(format!(in alloc; "{text} {reads} read, {runs} runs")?)
}

const SKEW: &str =
    "table t { }\nmutation w:make() { return insert(\"t\", {on: true}); }\nmutation w:off(mine, other) { let d = get(other); if (d.on) { patch(mine, {on: false}); } return d.on; }\n";

const ROWS: &str =
    "table t { index by_n(n); }\nmutation p:put(n) { return insert(\"t\", {n: n}); }\nmutation p:set(id, n) { patch(id, {n: n}); return n; }\nmutation p:guard(lo, hi) { let r = scan(\"t\", \"by_n\", n >= lo, n < hi); if (len(r) == 0) { insert(\"t\", {n: lo}); } return len(r); }\nmutation p:two() { return len(scan(\"t\", \"by_n\") take (2)); }\nquery p:first() { return len(scan(\"t\", \"by_n\") take (2)); }\n";

const THREE: [&str; 3] = [
    "call 00000000-0000-0000-0000-000000000009 1 p:put {\"n\":1}",
    "call 00000000-0000-0000-0000-000000000009 2 p:put {\"n\":2}",
    "call 00000000-0000-0000-0000-000000000009 3 p:put {\"n\":3}",
];

// Two calls by turns behind others, and what they tell.
#[derive(Clone, Copy)]
struct Row<'a> {
    module: &'a str,
    before: &'a [&'a str],
    first: &'a str,
    second: &'a str,
    turns: &'a str,
    text: &'a str,
}

const MAKE: [&str; 2] = [
    "call 00000000-0000-0000-0000-000000000009 1 w:make {}",
    "call 00000000-0000-0000-0000-000000000009 2 w:make {}",
];

const GUARD: &str = "call 00000000-0000-0000-0000-000000000001 1 p:guard {\"lo\":10,\"hi\":20}";

const TAKE_TWO: &str = "call 00000000-0000-0000-0000-000000000001 1 p:two {}";

const TURNS: [Row<'static>; 6] = [
    // Each turns its own document off, unless the other's is off.
    Row {
        module: SKEW,
        before: &MAKE,
        first: "call 00000000-0000-0000-0000-000000000001 1 w:off {\"mine\":\"000000000000000000000000000000000009000000010000\",\"other\":\"000000000000000000000000000000000009000000020000\"}",
        second: "call 00000000-0000-0000-0000-000000000002 1 w:off {\"mine\":\"000000000000000000000000000000000009000000020000\",\"other\":\"000000000000000000000000000000000009000000010000\"}",
        turns: "11122212222",
        text: "done 3 true;back 3 write 0 old index 0 range 0;done 4 false;",
    },
    // A row comes into an empty range, or behind its end.
    Row {
        module: ROWS,
        before: &[],
        first: GUARD,
        second: "call 00000000-0000-0000-0000-000000000002 1 p:put {\"n\":15}",
        turns: "11221111",
        text: "done 1 \"000000000000000000000000000000000002000000010000\";back 1 write 0 new index 2 range 0;done 2 {\"$integer\":\"AQAAAAAAAAA=\"};",
    },
    Row {
        module: ROWS,
        before: &[],
        first: GUARD,
        second: "call 00000000-0000-0000-0000-000000000002 1 p:put {\"n\":20}",
        turns: "11221",
        text: "done 1 \"000000000000000000000000000000000002000000010000\";done 2 {\"$integer\":\"AAAAAAAAAAA=\"};",
    },
    // A scan that was cut after two rows: the third changes behind them, the second changes, the third
    // comes before them.
    Row {
        module: ROWS,
        before: &THREE,
        first: TAKE_TWO,
        second: "call 00000000-0000-0000-0000-000000000002 1 p:set {\"id\":\"000000000000000000000000000000000009000000030000\",\"n\":5}",
        turns: "112221",
        text: "done 4 {\"$integer\":\"BQAAAAAAAAA=\"};done 5 {\"$integer\":\"AgAAAAAAAAA=\"};",
    },
    Row {
        module: ROWS,
        before: &THREE,
        first: TAKE_TWO,
        second: "call 00000000-0000-0000-0000-000000000002 1 p:set {\"id\":\"000000000000000000000000000000000009000000020000\",\"n\":5}",
        turns: "112221",
        text: "done 4 {\"$integer\":\"BQAAAAAAAAA=\"};back 4 write 0 old index 2 range 0;",
    },
    Row {
        module: ROWS,
        before: &THREE,
        first: TAKE_TWO,
        second: "call 00000000-0000-0000-0000-000000000002 1 p:set {\"id\":\"000000000000000000000000000000000009000000030000\",\"n\":0}",
        turns: "112221",
        text: "done 4 {\"$integer\":\"AAAAAAAAAAA=\"};back 4 write 0 new index 2 range 0;",
    },
];

#[test]
fn jobs_by_turns(rt: HostRuntime) -> Result<(), Fail> {
    let alloc = rt.alloc();
    for row in TURNS {
        let text = by_turns(
            alloc, row.module, row.before, row.first, row.second, row.turns,
        )?;
        assert_eq!(rt; text.as_str(), row.text);
    }
    Ok(())
}

// A query of three rows in an index, of which it takes two.
#[test]
fn a_query_is_answered(rt: HostRuntime) -> Result<(), Fail> {
    let alloc = rt.alloc();
    let query = Query {
        udf: Text::of(alloc, "p:first")?,
        args: Fields::new(alloc),
    };
    let copy = query.copy(alloc)?;
    assert!(rt; copy == query);
    let text = asked(alloc, ROWS, &THREE, &copy)?;
    assert_eq!(rt;
        text.as_str(),
        "done 3 {\"$integer\":\"AgAAAAAAAAA=\"}; 1 read, 4 runs"
    );
    Ok(())
}
