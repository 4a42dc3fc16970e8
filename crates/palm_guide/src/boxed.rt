//! A guide in a box is the guide inside.
use crate::guide::{Guide, ViewRow};
use palm_base::{Pair, Var};

impl Guide for Box<dyn Guide> {
    ghost state = { λ b. (Guide-box b).state b.value };

    ghost answers = { λ b. (Guide-box b).answers b.value };

    ghost hears = { λ b. (Guide-box b).hears b.value };

    fn pick(&mut self, view: &[ViewRow]) -> Option<Pair> {
        (**self).pick(view)
    }

    fn learned(&mut self, conflict: &[Var]) {
        (**self).learned(conflict);
    }
}
