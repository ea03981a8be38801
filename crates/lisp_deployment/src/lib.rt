//! A deployment: the nodes of one configuration, each a program of its own on a machine of its own, and what they come to over their
//! turns and together (RFC 9301 sections 5.2, 5.6, 5.7, 8.2 and 8.3). It has definitions and laws alone, and no code.
//!
//! # Decisions
//!
//! - Where time passes a node may drop its dead rows or keep them (`passing_stands` of `lisp_refinement`): a program drops them in its
//!   own turns, and not whenever another node acts. No promise speaks of a dead row.
//! - A deployment has one moment: of two turns the later one reads its clock no earlier. So all clocks are taken to be one.
//! - A node that starts later than its network idles until then, as if it had begun with it, and then begins again: so each life
//!   of a program is a restart.
//! - A store that another process opens counts its failures anew. So a restart may lower that count; no promise speaks of it.
//! - The network has all that the nodes sent, and perhaps more: a node that crashed may have saved the nonce of a message that it
//!   didn't send any more. Nobody receives such a message.
//! - To the trace all that a node receives comes from outside; what another node sent is an echo of it there. That nobody
//!   outside knows a secret is a premise about what was received (`ReceivesUnforged`): then the trace is clean.
//! - A secret that a node may hold is, of a router, that of each key of its site: a router may go over to any of them. A Map-Server may
//!   hold those of each site of the configuration, and of sites that a Map-Server was given while it ran.
//! - A life begins with the sites of the configuration, as a process reads its file. Where a Map-Server ended its life under others, the
//!   trace has a step in which it takes those of the configuration again; nobody is told of it, as of what a crash swallows. That the file
//!   has other sites by then isn't said: a deployment is of one configuration.
//! - That a store keeps over a crash what it said that it saved is a premise: no contract sees a program that is killed.
#![tactic(auto)]

pub mod laws;
