//! What the arguments of bodies stand for: atoms, or variables.

ghost use Rattle.std.specs.Prelude.{◌≡◌, IfOk, map};
ghost use Rattle.rf_names.specs.Declarations.{is_among, is_atom_argument, param_names};
ghost use Rattle.rf_names.specs.Gathering.{is_atom_among};

use crate::bodies::is_blank;
use crate::named::numbered;
use crate::names::Names;
use crate::numbering::Numbering;
use rf_syntax::{Name, Param};
use std::alloc::{AllocError, Global};

/// The parameters of a predicate, by their texts.
pub fn numbered_params<'a>(alloc: Global, params: &'a [Param]) -> Result<Numbering<'a>, AllocError>
    ensures { IfOk result (λ known. map (λ n. n.now) known.names.items ≡ param_names params.now) }
{
    numbered(alloc, params)
}

/// Whether an argument of a body stands for one of these atoms, beside these parameters.
pub fn is_atom_among(atoms: &Numbering, params: &Numbering, name: &Name) -> bool
    ensures { result ≡ is_atom_among
        (map (λ n. n.now) atoms.now.names.items)
        (map (λ n. n.now) params.now.names.items)
        name.now }
{
    let text = name.text.as_str();
    !is_blank(name) && !params.contains(text) && atoms.contains(text)
}

/// What the arguments of the bodies of one predicate stand for.
#[derive(Drop)]
pub struct Arguments<'n, 'a, 'p> {
    pub names: &'n Names<'a>,
    pub params: &'p [Param],
    // The parameters by their texts.
    known: Numbering<'p>,
    ghost of_params: { map (λ n. n.now) known.names.items ≡ param_names params.now },
}

impl<'n, 'a, 'p> Arguments<'n, 'a, 'p> {
    /// In bodies of a predicate with these parameters.
    pub fn of(
        alloc: Global,
        names: &'n Names<'a>,
        params: &'p [Param],
    ) -> Result<Arguments<'n, 'a, 'p>, AllocError>
        ensures declared { IfOk result (λ arguments.
            arguments.names.now.declared.now ≡ names.now.declared.now) }
        ensures params { IfOk result (λ arguments. arguments.params.now ≡ params.now) }
    {
        let known = numbered_params(alloc, params)?;
        Ok(Arguments {
            names,
            params,
            known,
        })
    }

    /// Whether a parameter has this name.
    pub fn is_param(&self, name: &Name) -> bool
        ensures { result ≡ is_among (param_names self.now.params.now) name.now }
    {
        self.known.contains(name.text.as_str())
    }

    /// Whether an argument stands for an atom.
    pub fn is_atom(&self, name: &Name) -> bool
        ensures { result ≡ is_atom_argument
            self.now.names.now.declared.now.atoms self.now.params.now name.now }
    {
        let names = self.names;
        let declared = names.declared;
        is_atom_among(&declared.atoms, &self.known, name)
    }
}
