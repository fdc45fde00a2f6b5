//! The tests of `las_survey`, over its public calls alone.
#![tactic(auto)]

#[cfg(test)]
mod survey_bytes;
#[cfg(test)]
mod survey_faults;
#[cfg(test)]
mod survey_files;
#[cfg(test)]
mod survey_limit;
#[cfg(test)]
mod survey_versions;
