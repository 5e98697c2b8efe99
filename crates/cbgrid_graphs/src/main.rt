//! The small program of graphs. It does each job of `cbgrid` that asks for a task on a graph, without ranks, and is proved and
//! compiled long before the whole program.
#![tactic(auto)]

ghost use Rattle.std.specs.Prelude.{◌≡◌, IfSome, None};
ghost use Rattle.cb_operations.specs.declared.graphs.GraphTask.{GraphTask};
ghost use Rattle.cbgrid_graphs.specs.GraphJobs.{Asks, IsJobAnswer, IsJobFault};

use cb_command_line::{EngineName, Job, Task};
use cb_job_ends::faults::JobFault;
use cb_job_ends::sinks::Sink;
use cb_job_ends::texts::Text;
use cb_job_files::system_files::SystemFiles;
use cb_job_graphs::graph_tasks::execute_graph_task;
use cb_job_runs::endings::Status;
use cb_job_runs::runs::Program;
use cb_job_runs::system_runs::run_on_system;
use cb_operations::GraphTask;
use std::alloc::Global;
use std::thread::Threads;

/// The program, by its answers.
struct Graphs;

/// The task on a graph that a job asks for, if it asks for no ranks.
fn graph_task_of(job: &Job) -> Option<GraphTask>
    ensures some { IfSome result (Asks job.now) }
    ensures none { result ≡ None → (task : GraphTask) → ¬ Asks job.now task }
{
    let Task::Graph(task) = job.task else {
        return None;
    };
    (job.engine == EngineName::Plain).then_some(task)
}

impl<R: Threads + Sync> Program<R> for Graphs {
    ghost answers = { IsJobAnswer };

    ghost faults = { IsJobFault };

    fn answer<K: Sink>(
        rt: &R,
        alloc: Global,
        job: &Job,
        texts: Vec<Text>,
        out: &mut K,
    ) -> Result<(), JobFault> {
        match graph_task_of(job) {
            Some(task) => execute_graph_task(rt, alloc, job.threads, task, texts, out),
            None => Err(JobFault::Absent),
        }
    }
}

fn main(rt: HostRuntime) -> Status {
    run_on_system::<Graphs, _, _, _>(&rt, &SystemFiles::new(&rt), rt.stderr())
}
