//! Definitions alone: what a survey, its classes, a camera and a picture mean. Nothing here runs.
//! The crates above state by these words what they read, draw and write.
#![tactic(auto)]
