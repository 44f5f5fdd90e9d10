//! Tests of what no contract says and no row of events can show: blocks byte by byte, as the format says; shared
//! volumes whose ports read on threads of their own, beside a writer and a cleaner; and calls that nothing else
//! makes. Each prints its name, and what it came to.
use nl_types::VolError;
use std::alloc::Global;
use std::sync::Wait;
use std::thread::Threads;

pub(crate) mod backup;
mod calls;
mod directories;
mod formats;
mod many_reads;
mod trees;

/// What a test comes to.
type Came = Result<bool, VolError>;

/// Prints what a test came to, and says whether all is as is due.
fn tell(rt: &HostRuntime, name: &str, came: Came) -> bool {
    let text = match came {
        Ok(true) => "ok",
        Ok(false) => "failed",
        Err(refusal) => refusal.name(),
    };
    let told = println!(rt; "{name} {text}");
    came == Ok(true) && told.is_ok()
}

fn test_formats(rt: &HostRuntime, alloc: Global) -> bool {
    let formats = Ok(formats::blocks_are_spelled_byte_by_byte());
    let directories = directories::records_are_spelled_byte_by_byte(alloc);
    let trees = trees::all_blocks_of_a_file_are_listed(alloc);
    let are_spelled = tell(rt, "formats", formats) & tell(rt, "directories", directories);
    are_spelled & tell(rt, "trees", trees)
}

fn test_ports<R: Threads + Wait + Sync>(rt: &HostRuntime, handles: &R, alloc: Global) -> bool {
    let backup = backup::backups_are_of_one_moment(handles, alloc);
    let many_reads = many_reads::many_reads_are_made_at_once(handles, alloc);
    let calls = calls::each_call_answers(handles, alloc);
    let go_on = tell(rt, "backup", backup) & tell(rt, "many_reads", many_reads);
    go_on & tell(rt, "calls", calls)
}

/// Does all tests, and answers the exit status.
pub(crate) fn run<R: Threads + Wait + Sync>(rt: &HostRuntime, handles: &R) -> u8 {
    let alloc = rt.alloc();
    let are_well = test_formats(rt, alloc) & test_ports(rt, handles, alloc);
    u8::from(!are_well)
}
