//! Plays a whole script on a new stand.
ghost use Rattle.std.specs.Prelude.{◌≡◌, IfOk, OnOk, string_bytes};
ghost use Rattle.fn_tree.specs.SyntaxViews.{module_view};
ghost use Rattle.cv_stand.specs.EntryLines.{length_line};
ghost use Rattle.cv_stand.specs.Plays.{IsOneLog, play};
ghost use Rattle.cv_stand.specs.ScriptViews.{events_view, script_view};
ghost use Rattle.cv_stand.specs.Stands.{module_of};
ghost use Rattle.cv_stand.specs.Texts.{last_lines, script_text, with_feeds};
ghost use Rattle.cv_stand.specs.Writes.{Writes};

use crate::laws::scripts_make_one_log;
use crate::output::{PlayFault, write_line};
use crate::script::{Event, Script};
use crate::stand::Stand;
use cv_outside::Sink;
use cv_store::Runs;
use cv_values::Memory;
use fn_load::Program;
use std::alloc::Global;

fn length_text(alloc: Global, length: u64) -> Result<String, Memory>
    ensures { IfOk result (λ s. string_bytes s ≡ length_line length) }
{
    Ok(format!(in alloc; "ts {length}")?)
}

// Plays events, one after another.
fn play_all<K: Sink>(
    alloc: Global,
    program: &Program,
    stand: &mut Stand,
    events: &[(u64, Event)],
    runs: &mut Runs,
    out: &mut K,
) -> Result<(), PlayFault>
    requires { module_view program.now.checked.tree ≡ module_of stand.old }
    ensures last { OnOk result (stand.new.stage ≡ (play (module_of stand.old) stand.old.stage (events_view events.now)).last) }
    ensures writes { Writes (with_feeds (play (module_of stand.old) stand.old.stage (events_view events.now)).lines)
        (K.held out.old) (K.held out.new) (K.faults out.old) (K.faults out.new) result }
{
    for numbered in events {
        stand.play(alloc, program, &numbered.1, out, runs)?;
    }
    Ok(())
}

// Tells the length of the log, where no line is bad.
fn write_end<K: Sink>(
    alloc: Global,
    bad: Option<u64>,
    stand: &Stand,
    out: &mut K,
) -> Result<(), PlayFault>
    ensures { Writes (with_feeds (last_lines bad stand.now.stage.history))
        (K.held out.old) (K.held out.new) (K.faults out.old) (K.faults out.new) result }
{
    match bad {
        Some(_) => Ok(()),
        None => {
            let line = length_text(alloc, stand.counts().entries)?;
            write_line(out, line)
        }
    }
}

/// Plays the events of a script from an empty log, when the clock reads 0: each call adds its entry,
/// unless the log has one of its request, and tells the reply of that entry. Behind the last event the
/// length of the log is told, unless the script has a bad line, whose number is given back. What the
/// events make is one log, whatever the answer.
pub fn play_script<K: Sink>(
    alloc: Global,
    program: &Program,
    script: &Script,
    out: &mut K,
) -> Result<Option<u64>, PlayFault>
    ensures log { IsOneLog (module_view program.now.checked.tree) (script_view script.now).events }
    ensures bad { IfOk result (λ bad. bad ≡ (script_view script.now).bad) }
    ensures writes { Writes (script_text (module_view program.now.checked.tree) (script_view script.now))
        (K.held out.old) (K.held out.new) (K.faults out.old) (K.faults out.new) result }
{
    scripts_make_one_log();
    let mut stand = Stand::new(alloc, program)?;
    let mut runs = Runs { count: 0 };
    play_all(
        alloc,
        program,
        &mut stand,
        script.events.as_slice(),
        &mut runs,
        out,
    )?;
    write_end(alloc, script.bad, &stand, out)?;
    Ok(script.bad)
}
