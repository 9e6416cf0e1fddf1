//! The work that a job asks for.
ghost use Rattle.ghs_commands.specs.Job.{IsWithinLimits};
ghost use Rattle.ghs_cli.specs.Serving.{IfStored, IsBoundedTask, IsGraphCause, IsTreeText, IsUnread, IsUnwritten, Serves};
ghost use Rattle.ghs_answers.specs.Causes.{IsWrite, is_write};
ghost use Rattle.ghs_answers.specs.declared.fault.ServeFault.{ServeFault};
ghost use Rattle.peer_network.specs.declared.wake_set.WakeSet.TheVariants.{All};
ghost use Rattle.std.specs.Prelude.{◌≡◌, ◌⊎◌, ◌↔◌, false, true, IfSome, IsErrOf, IfErr, IfOk};

use crate::exploring::explored_text_of;
use crate::making::write_network_of;
use crate::printing::print;
use crate::replaying::replay_text_of;
use crate::running::write_run_of;
use crate::stepping::write_steps_of;
use crate::sweeping::sweep_text_of;
use crate::viewing::{stored_view_of, view_text_of};
use ghs_answers::fault::ServeFault;
use ghs_commands::job::{Job, Task};
use ghs_gr::device::{Sink, Source};
use ghs_gr::judgement::read_gr;
use ghs_graph::graph::Graph;
use ghs_graph::tree::tree_of;
use ghs_report::core_lines::put_graph_cores;
use ghs_report::tree_text::tree_text;
use std::alloc::Global;
use std::sync::Wait;
use std::thread::Threads;

/// Does what the job asks for: reads what it needs, and writes what is to be printed. The output is made whole before its
/// first byte goes out, but for steps and networks that are made: their lines go out by portions, once what they are of
/// is judged, so that lack of memory may be said behind a front of them. Of several faults the first in the order of work
/// counts: reading the trace, judging it, reading the graph, judging it, the run or the replay, the writing; want of
/// memory comes where it is met. Only replays, steps and pages of stored runs touch the trace. Threads run a network
/// where the job names workers, and where it asks for progress lines on standard error tell of it; one that can't be
/// written is passed over. Where the events of a run are asked for, they go out before the answer that its turns are
/// used, and a write that fails then is answered in its place. A patient run, one by rounds, or one of what was sent
/// last, without threads, that has turns for 2(B + N) events, B the bound and N the nodes, is never answered by its
/// turns; nor is a run by another protocol that has turns for its bound and the nodes.
///
/// ```text
/// let job = read_job(alloc, &words)?;                       // the word tree
/// let (mut graph, mut trace) = (Device::of(file), Device::of(&b""[..]));
/// serve(rt, alloc, &job, &mut graph, &mut trace, &mut Device::of(&mut text))?;
/// // of two nodes and a link of weight 5 text is b"t 1 2 5\nw 5\n"
/// ```
pub fn serve<R: Source, T: Source, W: Sink, H: Threads + Wait + Eprint + Sync>(
    rt: &H,
    alloc: Global,
    job: &Job,
    graph: &mut R,
    trace: &mut T,
    out: &mut W,
) -> Result<(), ServeFault>
    requires limits { IsWithinLimits job.now.task }
    requires graph { R.has_failed graph.old ≡ false }
    requires trace { T.has_failed trace.old ≡ false }
    requires out { W.has_failed out.old ≡ false }
    ensures serves { IfStored job.now.task (T.left trace.old) (λ stored. IfSome (R.left graph.old) (λ input. Serves job.now.task stored input (W.held out.old) (W.held out.new) result)) }
    ensures read { IsErrOf result ServeFault.Read ↔ ((R.has_failed graph.new ≡ true) ⊎ (T.has_failed trace.new ≡ true)) }
    ensures write { IsWrite result ↔ (W.has_failed out.new ≡ true) }
    ensures ends { IfSome (R.left graph.old) (λ input. IsBoundedTask job.now.task input → IsErrOf result ServeFault.TurnLimit → ⊥) }
    ensures unwritten { IsUnwritten job.now.task out.old out.new result }
    ensures trace { IsUnread job.now.task trace.old trace.new }
{
    match &job.task {
        Task::Tree { core } => print(tree_text_of(alloc, *core, graph), out),
        Task::Run { protocol, options } => write_run_of(rt, alloc, *protocol, options, graph, out),
        Task::Replay { protocol, wake } => {
            print(replay_text_of(alloc, *protocol, *wake, graph, trace), out)
        }
        Task::Steps { protocol, options } => {
            write_steps_of(alloc, *protocol, options, graph, trace, out)
        }
        Task::Sweep { protocols, options } => {
            print(sweep_text_of(rt, alloc, protocols, options, graph), out)
        }
        Task::View { protocol, options } => {
            print(view_text_of(alloc, *protocol, options, graph), out)
        }
        Task::StoredView { protocol, options } => {
            print(stored_view_of(alloc, *protocol, options, graph, trace), out)
        }
        Task::Explore { protocol, options } => {
            print(explored_text_of(rt, alloc, *protocol, options, graph), out)
        }
        Task::Make(asked) => write_network_of(alloc, asked, out),
    }
}

/// The text of the minimum spanning forest of the graph that the device gives, with the cores of its components where they
/// are asked for.
fn tree_text_of<R: Source>(alloc: Global, core: bool, graph: &mut R) -> Result<Vec<u8>, ServeFault>
    requires { R.has_failed graph.old ≡ false }
    ensures text { IfOk result (λ text. IfSome (R.left graph.old) (λ input. IsTreeText core input text.items)) }
    ensures fault { IfErr result (λ fault. IfSome (R.left graph.old) (λ input. IsGraphCause All input fault)) }
    ensures early { IfErr result (λ fault. is_write fault ≡ false) }
    ensures read { IsErrOf result ServeFault.Read ↔ (R.has_failed graph.new ≡ true) }
{
    let raw = read_gr(alloc, graph)?;
    let tree = tree_of(alloc, &raw)?;
    let mut text = tree_text(alloc, &tree)?;
    if core {
        let Ok(graph) = Graph::build(alloc, raw) else {
            return Err(ServeFault::Memory);
        };
        put_graph_cores(alloc, &mut text, &graph)?;
    }
    Ok(text)
}
