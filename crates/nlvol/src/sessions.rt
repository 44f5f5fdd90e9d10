//! A session of the program: the words behind its name, and then a script on a volume in memory.
ghost use Rattle.std.specs.Prelude.{◌≡◌, Bool, map, option_map, IfErr, IfOk, IsOkUnless, List, None, OnErr, OnOk, Option, ℕ};
ghost use Rattle.std.specs.Io.KnownBytes.{Appends};
ghost use Rattle.nlvol.specs.Beginnings.{IsBegunBy, IsStartFault, place_path};
ghost use Rattle.nlvol.specs.Sessions.{IsScriptRun, IsSession, Prints, RunsBegun, RunsOn, RunsOrRefuses, RunsWith, printing_of, streams};
ghost use Rattle.nlvol.specs.Telling.{errors_of};

use crate::ending::end;
use crate::inputs::buffered;
use crate::script_volume::ScriptVolume;
use crate::starting::{MOMENT, StartFault, pen_for, place_for};
use crate::telling::{
    SessionEnd, save_path, tell_configuration, tell_failure, tell_fault, tell_notice, tell_refusal,
    tell_words,
};
use nl_cleaner::Job;
use nl_commands::{Arguments, Asked, read};
use nl_core::Pen;
use nl_device::MemDevice;
use nl_mounts::Port;
use nl_protect::Config;
use nl_publish::{Opened, Volumes};
use nl_saving::SavePlace;
use nl_script::texts::{Done, StandardStream, StartStep};
use nl_script::{Readers, Runner, configuration};
use nl_types::{Items, VolError};
use std::alloc::Global;
use std::fs::File;
use std::io;
use std::io::{Eprint, Read, Write};
use std::marker::Brand;
use std::rt::Files;
use std::sync::Wait;
use std::thread::Threads;

/// Makes the input's buffer, and runs the script. Refused by `Memory`, no line was run.
fn run_on<J: Volumes + Send + Sync, R: Threads + Wait + Sync, I: Read + Drop, O: Write>(
    runner: &mut Runner<'_, ScriptVolume<'_, Pen<MemDevice>, Job, J, R>, Port<J>, R>,
    input: I,
    output: &mut O,
) -> Result<Done, VolError>
    ensures run { IfOk result (λ done.
        IsScriptRun runner.old.config (printing_of (I.remaining input) O.contents output.old output.new)
        runner.old.volume runner.new.volume done) }
    ensures refused { IsOkUnless result VolError.Memory }
    ensures unprinted { OnErr result (output.new ≡ output.old) }
{
    let input = buffered(runner.alloc, input)?;
    Ok(runner.script(MOMENT, input, output))
}

/// Runs the script on a volume, and gives its pen back, without mounts. Refused, no line was run.
fn run_script<J: Volumes + Send + Sync, R: Threads + Wait + Sync, I: Read + Drop, O: Write>(
    rt: &R,
    alloc: Global,
    pen: Pen<MemDevice>,
    opened: Opened,
    config: &Config,
    input: I,
    output: &mut O,
) -> Result<(Done, Pen<MemDevice>), VolError>
    requires id { opened.seen.book ≡ J.book opened.id }
    ensures run { IfOk result (λ left.
        RunsOn pen left.1 config.now (printing_of (I.remaining input) O.contents output.old output.new)
        left.0) }
    ensures refused { IsOkUnless result VolError.Memory }
    ensures unprinted { OnErr result (output.new ≡ output.old) }
{
    let (volume, ports) = ScriptVolume::<_, Job, J, _>::new(rt, alloc, pen, opened)?;
    let mut runner = Runner {
        alloc,
        volume,
        readers: Readers { rt, ports },
        config: *config,
    };
    let done = run_on(&mut runner, input, output);
    let Runner {
        alloc: _,
        volume,
        readers: _readers,
        config: _,
    } = runner;
    // The mounts that the script left are taken out.
    let pen = volume.end();
    match done {
        Ok(done) => Ok((done, pen)),
        Err(refusal) => {
            drop(pen);
            Err(refusal)
        }
    }
}

/// Writes a text, and hands it on.
fn written<O: Write>(text: &[u8], output: &mut O) -> io::Result<()>
    ensures { OnOk result (Appends (O.contents output.old) (O.contents output.new) text.now) }
{
    output.write_all(text)?;
    output.flush()
}

/// Writes the text that a person asked for. An empty one would be no answer.
fn print_asked<O: Write, E: Write>(text: &str, output: &mut O, errors: &mut E) -> SessionEnd
    ensures { (is_typed : Bool) (input : Option (List ℕ)) → Prints text.now
        (streams is_typed (printing_of input O.contents output.old output.new)
        (errors_of E.contents errors.old errors.new)) result }
{
    if written(text.as_bytes(), output).is_err() {
        return SessionEnd {
            status: 1,
            told: tell_failure(StandardStream::Output, errors),
        };
    }
    SessionEnd {
        status: u8::from(text.is_empty()),
        told: true,
    }
}

/// What a session begins with: the place where it saves, if it does, and then its volume.
fn begin<'a, R: AllocGlobal + Files<File = File>>(
    rt: &R,
    arguments: &'a Arguments,
) -> Result<(Option<SavePlace<'a>>, Pen<MemDevice>), StartFault>
    ensures place { IfOk result (λ begun. place_path begun.0 ≡ arguments.now.save) }
    ensures begun { IfOk result (λ begun. IsBegunBy arguments.now begun.1) }
    ensures refused { IfErr result (IsStartFault arguments.now) }
{
    let place = place_for(rt, arguments)?;
    let pen = pen_for(rt, arguments)?;
    Ok((place, pen))
}

/// Runs the script on its volume and ends, behind what was told.
fn run_begun<
    R: AllocGlobal + Files<File = File> + Eprint + Threads + Wait + Sync,
    I: Read + Drop,
    O: Write,
    E: Write,
>(
    rt: &R,
    begun: (Option<SavePlace<'_>>, Pen<MemDevice>),
    config: &Config,
    input: I,
    output: &mut O,
    errors: &mut E,
) -> SessionEnd
    ensures { RunsBegun (place_path begun.entry.0) begun.entry.1 config.now
        (printing_of (I.remaining input) O.contents output.old output.new)
        (errors_of E.contents errors.old errors.new) result }
{
    let (place, pen) = begun;
    // The session has one shared volume.
    let opened = Opened::new(1);
    match run_script::<Brand, _, _, _>(rt, rt.alloc(), pen, opened, config, input, output) {
        Ok((done, mut pen)) => end(rt, place, done, &mut pen, errors),
        Err(error) => SessionEnd {
            status: 1,
            told: tell_refusal(StartStep::Start, error, errors),
        },
    }
}

fn run_with<
    R: AllocGlobal + Files<File = File> + Eprint + Threads + Wait + Sync,
    I: Read + Drop,
    O: Write,
    E: Write,
>(
    rt: &R,
    arguments: &Arguments,
    config: &Config,
    is_typed: bool,
    input: I,
    output: &mut O,
    errors: &mut E,
) -> SessionEnd
    ensures { RunsWith arguments.now config.now
        (streams is_typed (printing_of (I.remaining input) O.contents output.old output.new)
        (errors_of E.contents errors.old errors.new)) result }
{
    let begun = match begin(rt, arguments) {
        Ok(begun) => begun,
        Err(fault) => {
            return SessionEnd {
                status: 1,
                told: tell_fault(arguments, fault, errors),
            };
        }
    };
    let noticed = tell_notice(save_path(arguments), is_typed, errors);
    run_begun(rt, begun, config, input, output, errors).behind(noticed)
}

fn path_of(arguments: &Arguments) -> Option<&[u8]>
    ensures { option_map (λ p. p.now) result ≡ arguments.now.configuration }
{
    arguments.configuration.as_ref().map(Items::as_slice)
}

/// The configuration is read before anything else is judged.
fn run<
    R: AllocGlobal + Files<File = File> + Eprint + Threads + Wait + Sync,
    I: Read + Drop,
    O: Write,
    E: Write,
>(
    rt: &R,
    arguments: &Arguments,
    is_typed: bool,
    input: I,
    output: &mut O,
    errors: &mut E,
) -> SessionEnd
    ensures { RunsOrRefuses arguments.now
        (streams is_typed (printing_of (I.remaining input) O.contents output.old output.new)
        (errors_of E.contents errors.old errors.new)) result }
{
    let path = path_of(arguments);
    match configuration(rt, path) {
        Ok(config) => run_with(rt, arguments, &config, is_typed, input, output, errors),
        Err(fault) => SessionEnd {
            status: 1,
            told: tell_configuration(path, fault, errors),
        },
    }
}

/// What the words behind the program's name ask for: a script on a volume in memory, or a text about the
/// program. The volume is new, or that of an image in a file, and its image is saved in the end where that is
/// asked for. The exit status is 2 where the words or a line were no command, else 1 where anything was
/// refused, or a stream or the configuration's file failed, else 0. What the lines answer goes to the output,
/// which is best buffered: it is flushed behind each line. Only why no line was run, that a stream failed,
/// and why the volume isn't saved goes to `errors`; and, if a person types the script at a terminal and reads
/// `errors` there, when it will be saved.
pub fn session<
    R: AllocGlobal + Files<File = File> + Eprint + Threads + Wait + Sync,
    I: Read + Drop,
    O: Write,
    E: Write,
>(rt: &R, words: &[&str], is_typed: bool, input: I, output: &mut O, errors: &mut E) -> SessionEnd
    ensures { IsSession (map (λ w. w.now) words.now)
        (streams is_typed (printing_of (I.remaining input) O.contents output.old output.new)
        (errors_of E.contents errors.old errors.new)) result }
{
    match read(rt.alloc(), words) {
        Ok(Asked::Run(arguments)) => run(rt, &arguments, is_typed, input, output, errors),
        Ok(Asked::Help(text)) => print_asked(text.as_str(), output, errors),
        Ok(Asked::Version(text)) => print_asked(text.as_str(), output, errors),
        Err(fault) => SessionEnd {
            status: fault.status(),
            told: tell_words(&fault, errors),
        },
    }
}
