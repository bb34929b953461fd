//! Assertions with what their symbols stand for.

use crate::Sense;
use crate::parts::AssertDeclaration;
use std::marker::Model;

/// An assertion, and what its symbol stands for.
#[derive(Drop)]
pub struct SensedAssertion<'a> {
    pub form: &'a AssertDeclaration<'a>,
    pub sense: Sense,
}

impl<'a> Model for SensedAssertion<'a> {
    ghost use Rattle.rf_names.specs.LookUp.{SensedDecl};

    ghost Value = { SensedDecl };

    ghost view = { λ a. record { form = a.form.now; sense = a.sense } };
}
