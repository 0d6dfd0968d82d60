//! The run of a call: its start, its end, and what it writes.
ghost use Rattle.std.specs.Prelude.{◌≡◌, ◌≤◌, ◌<◌, ◌^◌, ◌&&◌, ◌++◌, [], List, length, map, option_map, slice_get, Some, IfOk, IfErr, IfSome, OnOk};
ghost use Rattle.std.specs.Str.{bytes_eq};
ghost use Rattle.cv_values.specs.Sizes.{size_of};
ghost use Rattle.cv_values.specs.Trees.{tree};
ghost use Rattle.cv_keys.specs.declared.schema.Schema.{Schema as KeySchema};
ghost use Rattle.fn_tree.specs.Actions.{Site, nothing_used};
ghost use Rattle.fn_tree.specs.Course.{gives};
ghost use Rattle.fn_tree.specs.Documents.{doc_of};
ghost use Rattle.fn_tree.specs.Functions.{is_kind, found_in, function_means, replied, kind_of, arguments_for, failed_at_start, limits_of as run_limits};
ghost use Rattle.fn_tree.specs.Run.{run, run_of, run_within, played, puts_to, unless_gone, writes_to};
ghost use Rattle.fn_tree.specs.Schemas.{schema_of};
ghost use Rattle.fn_tree.specs.SyntaxTree.{FunctionTree, TableTree};
ghost use Rattle.fn_tree.specs.SyntaxViews.{function_view, module_view};
ghost use Rattle.fn_check.specs.Rooms.{HasRoom};
ghost use Rattle.fn_plain.specs.Runs.{unused, start_view, LeavesRoom, IsRun, function_at, reply_end, EndsAs};
ghost use Rattle.fn_plain.specs.States.{IsWithin, end_of, counts_of, limits_of, first_site, site_at};

use crate::context::{Context, Counts, Limits, Progress};
use crate::documents::{doc_of, with_puts};
use crate::fault::{Fault, failure};
use crate::play::play_function;
use cv_keys::{Interval, Schema, Write};
use cv_values::{Doc, DocId, Fields, Memory, Seq, Text, Val, size_of};
use fn_check::Checked;
use fn_tree::{Function, Kind, Named, Origin, Put, Reply};
use std::alloc::Global;

/// What a run begins with: the path of a function, its arguments, and a mutation's origin.
#[derive(Drop)]
pub struct Start<'a> {
    pub udf: &'a Text,
    pub args: &'a Fields,
    pub origin: Option<Origin>,
}

/// A run that is over.
#[derive(Drop)]
pub struct PlainRun {
    pub reply: Reply,
    pub writes: Seq<Write>,
    pub reads: Vec<Interval>,
    pub cost: u64,
}

/// A mutation has an origin, and a query has none.
fn kind_of(origin: &Option<Origin>) -> Kind
    ensures { result ≡ kind_of origin.now }
{
    match origin {
        None => Kind::Query,
        Some(_) => Kind::Mutation,
    }
}

/// Whether two kinds are one.
fn is_kind(a: Kind, b: Kind) -> bool
    ensures { result ≡ is_kind a b }
{
    match (a, b) {
        (Kind::Query, Kind::Query) => true,
        (Kind::Mutation, Kind::Mutation) => true,
        (Kind::Helper, Kind::Helper) => true,
        _ => false,
    }
}

/// Whether a function has this kind and text.
fn is_called(function: &Function, kind: Kind, udf: &Text) -> bool
    ensures { result ≡ is_kind kind function.now.kind && bytes_eq function.now.udf udf.now }
{
    is_kind(kind, function.kind) && function.udf == *udf
}

/// The number of the first function of this kind and text, if there is one.
fn find_function(functions: &[Function], kind: Kind, udf: &Text) -> Option<usize>
    ensures there { IfSome result (λ n. n < length functions.now) }
    ensures found { (site : Site) → found_in kind udf.now site (map function_view functions.now) ≡ function_at site (map function_view functions.now) result }
{
    for number in 0..functions.len() {
        if is_called(&functions[number], kind, udf) {
            return Some(number);
        }
    }
    None
}

/// The values of the parameters in their order, where the names of the arguments are exactly theirs.
fn arguments_for(alloc: Global, params: &[Named], args: &Fields) -> Result<Option<Vec<Val>>, Memory>
    ensures { IfOk result (λ values. option_map (λ vs. map tree vs.items) values ≡ arguments_for params.now args.now) }
{
    if params.len() != args.len() {
        return Ok(None);
    }
    let mut values = Vec::with_capacity(alloc, params.len())?;
    for param in params {
        let Some(value) = args.get(&param.text) else {
            return Ok(None);
        };
        values.push(value.copy(alloc)?)?;
    }
    Ok(Some(values))
}

/// Whether one of the puts is to the id.
fn puts_to(puts: &[Put], id: &DocId) -> bool
    ensures { result ≡ puts_to id.now puts.now }
{
    for put in puts {
        if *id == put.id {
            return true;
        }
    }
    false
}

/// A copy of a document, if there is one.
fn copied(alloc: Global, doc: Option<&Doc>) -> Result<Option<Doc>, Memory>
    ensures { IfOk result (λ d. d ≡ option_map (λ d. d.now) doc.entry) }
{
    match doc {
        None => Ok(None),
        Some(doc) => Ok(Some(doc.copy(alloc)?)),
    }
}

/// Adds the write of an id, unless it has a document neither before nor after.
fn add_write(
    alloc: Global,
    writes: &mut Seq<Write>,
    before: &[Doc],
    after: &[Doc],
    id: &DocId,
) -> Result<(), Memory>
    ensures { OnOk result (writes.new ≡ writes.old ++ unless_gone (record { id = id.now; old = doc_of id.now before.now; new = doc_of id.now after.now }) []) }
{
    let old = copied(alloc, doc_of(before, id))?;
    let new = copied(alloc, doc_of(after, id))?;
    if old.is_some() || new.is_some() {
        writes.push(Write { id: *id, old, new })?;
    }
    Ok(())
}

/// One write for each id in order of its first put, with the documents before the run and after it.
/// It looks through the earlier puts for each put.
pub fn writes_of(
    alloc: Global,
    before: &[Doc],
    after: &[Doc],
    puts: &[Put],
) -> Result<Seq<Write>, Memory>
    ensures { IfOk result (λ ws. ws ≡ writes_to before.now after.now [] puts.now) }
{
    let mut writes = Seq::new(alloc);
    for at in 0..puts.len() {
        let id = puts[at].id;
        if !puts_to(&puts[..at], &id) {
            add_write(alloc, &mut writes, before, after, &id)?;
        }
    }
    Ok(writes)
}

/// The run that ends at its start with an error.
fn failed_at_start(alloc: Global, why: &str, docs: &[Doc]) -> Result<PlainRun, Memory>
    ensures { IfOk result (λ run. (schema : KeySchema) → IsRun run (run_of docs.now (played schema docs.now [] (failed_at_start why.now)))) }
{
    Ok(PlainRun {
        reply: Reply::Failed(Text::of(alloc, why)?),
        writes: Seq::new(alloc),
        reads: Vec::new(alloc),
        cost: 0,
    })
}

/// The value that the function of a number gives for a reply, unless it is too large.
fn play_reply(
    context: &Context,
    progress: &mut Progress,
    number: usize,
    values: Vec<Val>,
) -> Result<Val, Fault>
    requires within { IsWithin 0 context.now progress.now.counts }
    requires reply { context.now.limits.reply < 2 ^ 62 }
    requires there { number < length context.now.functions.now }
    ensures ok { (f : FunctionTree) → slice_get (map function_view context.now.functions.now) number ≡ Some f → IfOk result (λ v.
        end_of context.now progress.old (function_means (site_at context.now number) f (map tree values.items) (counts_of progress.old.counts) (replied (first_site context.now))) ≡ reply_end progress.new (gives (tree v))) }
    ensures err { (f : FunctionTree) → slice_get (map function_view context.now.functions.now) number ≡ Some f → IfErr result (λ fault.
        EndsAs progress.new fault (end_of context.now progress.old (function_means (site_at context.now number) f (map tree values.items) (counts_of progress.old.counts) (replied (first_site context.now))))) }
{
    let value = play_function(context, progress, number, values)?;
    if size_of(&value) <= context.limits.reply {
        Ok(value)
    } else {
        Err(failure(context.alloc, "TooLarge"))
    }
}

/// What a run has used up at its start.
fn nothing_used() -> Counts
    ensures { result ≡ unused }
{
    Counts {
        cost: 0,
        rows: 0,
        size: 0,
        ranges: 0,
        writes: 0,
        written: 0,
        inserts: 0,
    }
}

/// The run of the function of a number with the values of its parameters.
fn play_run(context: &Context, number: usize, values: Vec<Val>) -> Result<PlainRun, Memory>
    requires within { IsWithin 0 context.now unused }
    requires reply { context.now.limits.reply < 2 ^ 62 }
    requires there { number < length context.now.functions.now }
    ensures { (f : FunctionTree) → slice_get (map function_view context.now.functions.now) number ≡ Some f → IfOk result (λ run.
        IsRun run (run_of context.now.base.now (played context.now.schema.now context.now.base.now [] (function_means (site_at context.now number) f (map tree values.items) nothing_used (replied (first_site context.now)))))) }
{
    let alloc = context.alloc;
    let mut progress = Progress {
        puts: Vec::new(alloc),
        reads: Vec::new(alloc),
        counts: nothing_used(),
    };
    let reply = play_reply(context, &mut progress, number, values);
    let Progress {
        puts,
        reads,
        counts,
    } = progress;
    let cost = counts.cost;
    match reply {
        Ok(value) => {
            let after = with_puts(alloc, context.base, puts.as_slice())?;
            let writes = writes_of(alloc, context.base, after.as_slice(), puts.as_slice())?;
            let reply = Reply::Value(value);
            Ok(PlainRun {
                reply,
                writes,
                reads,
                cost,
            })
        }
        Err(Fault::Failed(why)) => {
            let writes = Seq::new(alloc);
            let reply = Reply::Failed(why);
            Ok(PlainRun {
                reply,
                writes,
                reads,
                cost,
            })
        }
        Err(Fault::Memory) => Err(Memory),
    }
}

/// The run of a call within some limits, of a module with these tables and functions, on documents.
pub fn run_within(
    alloc: Global,
    limits: &Limits,
    schema: &Schema,
    functions: &[Function],
    start: &Start,
    docs: &[Doc],
) -> Result<PlainRun, Memory>
    requires room { LeavesRoom limits.now }
    requires schema { HasRoom schema.now }
    ensures { (tables : List TableTree) → schema.now ≡ schema_of tables → IfOk result (λ run.
        IsRun run (run_within (limits_of limits.now) (record { tables = tables; functions = map function_view functions.now }) (start_view start.now) docs.now)) }
{
    let kind = kind_of(&start.origin);
    let Some(number) = find_function(functions, kind, start.udf) else {
        return failed_at_start(alloc, "UnknownFunction", docs);
    };
    let function = &functions[number];
    let Some(values) = arguments_for(alloc, function.params.as_slice(), start.args)? else {
        return failed_at_start(alloc, "BadArguments", docs);
    };
    let context = Context {
        alloc,
        schema,
        functions,
        limits: *limits,
        origin: start.origin,
        base: docs,
    };
    let run = play_run(&context, number, values);
    let Context {
        alloc: _alloc,
        schema: _schema,
        functions: _functions,
        limits: _limits,
        origin: _origin,
        base: _base,
    } = context;
    run
}

/// The limits of a mutation, or of a query.
fn limits_of(origin: &Option<Origin>) -> Limits
    ensures room { LeavesRoom result }
    ensures same { limits_of result ≡ run_limits origin.now }
{
    let ranges = match origin {
        None => 1024,
        Some(_) => 4096,
    };
    Limits {
        cost: 100_000,
        rows: 16_384,
        size: 8_388_608,
        ranges,
        writes: 8192,
        written: 8_388_608,
        reply: 1_048_576,
    }
}

/// The run of a call of a module on documents.
pub fn run(
    alloc: Global,
    program: &Checked,
    start: &Start,
    docs: &[Doc],
) -> Result<PlainRun, Memory>
    ensures { IfOk result (λ r. IsRun r (run (module_view program.now.tree) (start_view start.now) docs.now)) }
{
    let limits = limits_of(&start.origin);
    let schema = program.schema();
    let functions = program.module().functions.as_slice();
    run_within(alloc, &limits, schema, functions, start, docs)
}
