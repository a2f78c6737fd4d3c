//! Laws over every run of the machine: how frames and actors go in a history, with stops and faults.
#![tactic(auto)]

mod laws;

pub use laws::{
    actors_are_up_alike, answers_answer_requests, frames_are_given_in_flight, frames_are_numbered,
    frames_are_sent_by_actors, frames_fly_alike, moments_rise, the_proxy_alone_asks,
};
