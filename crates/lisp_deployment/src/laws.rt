//! What nodes that run come to, over their turns and together, as laws: each function's contract is a law, and its body is empty.

ghost use Rattle.lisp_deployment.specs.Budgeted.{RepliesKeepTheBudget};
ghost use Rattle.lisp_deployment.specs.Deeds.{DeploymentsHaveTraces};
ghost use Rattle.lisp_deployment.specs.Deployment.{TurnsAreOneTrace};
ghost use Rattle.lisp_deployment.specs.Late.{LateTurnsAreParts};
ghost use Rattle.lisp_deployment.specs.Lives.{LivesStand, LostTurnsAreCuts};
ghost use Rattle.lisp_deployment.specs.Opening.{DeploymentsAreNetworks, DeploymentsBegin};
ghost use Rattle.lisp_deployment.specs.Printed.{KilledServersAcceptNoReplays, PrintedNoncesRise};
ghost use Rattle.lisp_deployment.specs.Received.{UnforgedDeploymentsAreClean};
ghost use Rattle.lisp_deployment.specs.Told.{AnswersShowHeld, CountedLinesWereAccepted, HeldRowsAgree, HeldRowsWereSent};

use std::alloc::Allocator;

/// However many turns a node takes whose budget was unused before, in no second it gives its socket more bytes for Map-Requests than the
/// budget allows: to one destination, or to all of them. What the socket then refused counts too.
pub fn replies_keep_the_budget<A: Allocator>()
    ensures { RepliesKeepTheBudget A }
{}

/// Turns of a node are a legal trace's part of it, also in a network whose clock is behind the one of the node.
pub fn late_turns_are_parts<A: Allocator>()
    ensures { LateTurnsAreParts A }
{}

/// Turns of several nodes, in any order in which their clocks' readings don't fall, are one legal trace: a network that has all
/// nodes, and matches a trace, matches the trace followed by the steps of each turn, one turn after another. The events'
/// lines that a node printed are those of its steps, and the network has each datagram that was sent.
pub fn turns_are_one_trace<A: Allocator>()
    ensures { TurnsAreOneTrace A }
{}

/// For all honest stores that keep something for each pair there is a deployment that begins over them: until its first life a node idles.
pub fn deployments_begin()
    ensures { DeploymentsBegin }
{}

/// All that the nodes of a configuration do from their start on, each over an honest store of its own, is one network's: it has
/// a legal trace from its opening on, whose steps are those of the turns, whichever node took which.
pub fn deployments_are_networks<A: Allocator>()
    ensures { DeploymentsAreNetworks A }
{}

/// A turn that couldn't be committed is one that a crash cut off before anybody was told anything, whether the store keeps all that
/// was saved in it, or nothing.
pub fn lost_turns_are_cuts<A: Allocator>()
    ensures { LostTurnsAreCuts A }
{}

/// A node that crashes, perhaps in a turn, and begins its next life over what its store kept, is a restart in the network's trace,
/// unless it is a router that went over to another key or was given another database. A Map-Server that took other sites has those of its
/// configuration again. Of what a node did before the crash the network may have more than was printed and sent.
pub fn lives_stand<A: Allocator>()
    ensures { LivesStand A }
{}

/// A deployment has a legal trace, of which the headline holds, whichever of its nodes takes a turn when, and whichever crashes and
/// begins again: the events' lines that its nodes printed in all their lives are lines of that one trace.
pub fn deployments_have_traces<A: Allocator>()
    ensures { DeploymentsHaveTraces A }
{}

/// The nonces of Map-Registers of a router under a key that a Map-Server printed as accepted rise, over all its lives (RFC 9301
/// section 5.6).
pub fn printed_nonces_rise<A: Allocator>()
    ensures { PrintedNoncesRise A }
{}

/// A deployment in which nothing that a node received was forged has a clean trace, of which all holds that the headline says over clean
/// traces: each datagram was sent by a node before, or spells no message, or is authentic under no secret that its receiver may hold.
pub fn unforged_deployments_are_clean<A: Allocator>()
    ensures { UnforgedDeploymentsAreClean A }
{}

/// A Map-Server that was killed accepts no replay (RFC 9301 section 5.6): this follows from `printed_nonces_rise` alone.
pub fn killed_servers_accept_no_replays<A: Allocator>()
    ensures { KilledServersAcceptNoReplays A }
{
    printed_nonces_rise::<A>()
}

/// Where nothing that was received was forged, each row that a Map-Server holds is of a Map-Register that it accepted and a router sent,
/// whose database had the row's record then; both lines were printed, whoever crashed since (RFC 9301 sections 5.6 and 8.2).
pub fn held_rows_were_sent<A: Allocator>()
    ensures { HeldRowsWereSent A }
{}

/// What a user of a Map-Server is shown in a turn it holds at the turn's end.
pub fn answers_show_held<A: Allocator>()
    ensures { AnswersShowHeld A }
{}

/// Where nothing that was received was forged, two Map-Servers that hold rows of one router and prefix, sent with no change of its
/// database between, hold equal records.
pub fn held_rows_agree<A: Allocator>()
    ensures { HeldRowsAgree A }
{}

/// Where nothing that was received was forged, a router that printed that it counted a nonce has a Map-Server that accepted it, and
/// printed that, whoever crashed since (RFC 9301 section 5.7).
pub fn counted_lines_were_accepted<A: Allocator>()
    ensures { CountedLinesWereAccepted A }
{}
