//! Tests of the readers, through their public names: texts from outside and what they say, files cut anywhere, and tables of
//! rules with which the readers are compared.
#![tactic(auto)]

#[cfg(test)]
mod common;
#[cfg(test)]
mod configuration_rules;
#[cfg(test)]
mod configurations;
#[cfg(test)]
mod derivations;
#[cfg(test)]
mod expressions;
#[cfg(test)]
mod faults;
#[cfg(test)]
mod grammars;
#[cfg(test)]
mod interface_rules;
#[cfg(test)]
mod interfaces;
#[cfg(test)]
mod param_rules;
#[cfg(test)]
mod parameter_files;
#[cfg(test)]
mod params;
#[cfg(test)]
mod samples;
#[cfg(test)]
mod schedule_rules;
#[cfg(test)]
mod schedules;
#[cfg(test)]
mod steer_files;
#[cfg(test)]
mod texts;
