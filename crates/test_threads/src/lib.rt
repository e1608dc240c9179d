//! Only tests: sessions of a shared table, in threads. Scenarios of players that ask, sleep, end each
//! other's waits, look and learn notes; steps for one session and a manager; closing; watchers that
//! look while sessions work; a crowd of 128, replayed on a manager; and crews: what no contract can say
//! of a call that acquires the latch.
#![tactic(auto)]

#[cfg(test)]
mod actor;
#[cfg(test)]
mod alike;
#[cfg(test)]
mod crews;
#[cfg(test)]
mod crowd;
#[cfg(test)]
mod forest;
#[cfg(test)]
mod gathers;
#[cfg(test)]
mod looks;
#[cfg(test)]
mod player;
#[cfg(test)]
mod races;
#[cfg(test)]
mod rounds;
#[cfg(test)]
mod rows;
#[cfg(test)]
mod stage;
#[cfg(test)]
mod steps;
#[cfg(test)]
mod story;
#[cfg(test)]
mod tally;
#[cfg(test)]
mod tellings;
#[cfg(test)]
mod waits;
#[cfg(test)]
mod wakings;
#[cfg(test)]
mod wanted;
