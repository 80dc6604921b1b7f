//! The invariant of the runs of an image that keeps the rules, and its proof.
//! `IsSound` of `specs/` sorts the state of a process into contexts, and says where a thread stands and when its tracker may wait; `proofs/` has a
//! lemma for each kind of piece. It knows definitions alone: those of `cet_isa`, `cet_rules`, `cet_machine` and `cet_process`. `cet_sound`
//! states the laws.
#![tactic(auto)]
