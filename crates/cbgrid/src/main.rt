//! The program `cbgrid`. It reads its command line, runs it on the files of the system, and exits with the status of that
//! run. `cb_jobs` does the rest.
#![tactic(auto)]

use cb_job_files::system_files::SystemFiles;
use cb_job_runs::endings::Status;
use cb_job_runs::system_runs::run_on_system;
use cb_jobs::program::Cbgrid;

fn main(rt: HostRuntime) -> Status {
    run_on_system::<Cbgrid, _, _, _>(&rt, &SystemFiles::new(&rt), rt.stderr())
}
