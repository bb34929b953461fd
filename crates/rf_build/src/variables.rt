//! The variables of a clause and their numbers.

ghost use Rattle.std.specs.Prelude.{◌≡◌, ◌≤◌, IfOk, None, OnOk, Option, if◌then◌else◌, length, position};
ghost use Rattle.rf_bounds.specs.declared.TheConstants.{MOST_VARIABLES};
ghost use Rattle.rf_names.specs.Bodies.{is_variable_of, variable_number, with_variable};
ghost use Rattle.rf_names.specs.Declarations.{param_names};
ghost use Rattle.rf_names.specs.Texts.{is_blank, reads};

use rf_names::{is_blank, names_of_params, reads};
use rf_syntax::{Name, Param};
use std::alloc::{AllocError, Global};
use std::marker::Model;

fn position_among(names: &[&Name], text: &str) -> Option<usize>
    ensures { result ≡ position (λ n. reads text.now n.now) names.now }
{
    names.iter().position(|name| reads(text, *name))
}

/// The variables of a clause that are known so far, each by its first name.
#[derive(Drop)]
pub struct Variables<'a> {
    names: Vec<&'a Name>,
}

impl<'a> Model for Variables<'a> {
    ghost use Rattle.std.specs.Prelude.{List, map};
    ghost use Rattle.rf_syntax.specs.declared.name.Name.{Name};

    ghost Value = { List Name };

    ghost view = { λ v. map (λ n. n.now) v.names.items };
}

impl<'a> Variables<'a> {
    /// The parameters.
    pub fn of_params(alloc: Global, params: &'a [Param]) -> Result<Variables<'a>, AllocError>
        ensures { IfOk result (λ v. v ≡ param_names params.now) }
    {
        let names = names_of_params(alloc, params)?;
        Ok(Variables { names })
    }

    pub fn len(&self) -> u64
        ensures { result ≡ length self.now }
    {
        self.names.len() as u64
    }

    // The first known variable of this name.
    fn position_of(&self, text: &str) -> Option<usize>
        ensures { result ≡ position (reads text.now) self.now }
    {
        position_among(self.names.as_slice(), text)
    }

    // The number of the known variable that a name stands for.
    #[tactic(auto, using(crate::proofs::KnownVariables::found_steps))]
    fn number_of(&self, name: &Name) -> Option<usize>
        ensures { result ≡ (if is_variable_of self.now name.now
            then position (reads name.now.text) self.now else None) }
    {
        if is_blank(name) {
            None
        } else {
            self.position_of(name.text.as_str())
        }
    }

    /// The number of the variable that a name stands for, which is known from then on.
    #[tactic(auto, using(crate::proofs::KnownVariables::number_steps))]
    pub fn number(&mut self, name: &'a Name) -> Result<u8, AllocError>
        requires { length (with_variable self.old name.now) ≤ MOST_VARIABLES }
        ensures number { IfOk result (λ n. n ≡ variable_number self.old name.now) }
        ensures known { OnOk result (self.new ≡ with_variable self.old name.now) }
    {
        match self.number_of(name) {
            Some(number) => Ok(number as u8),
            None => {
                let number = self.names.len() as u8;
                self.names.push(name)?;
                Ok(number)
            }
        }
    }
}
