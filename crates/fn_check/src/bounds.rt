//! Which bounds a scan may have.
ghost use Rattle.std.specs.Prelude.{◌≡◌, length, nat_lt, if◌then◌else◌};
ghost use Rattle.fn_check.specs.Bounds.{fits, bounded_by, next_bound, is_next, unbounded};

use cv_values::Text;
use fn_tree::CompareOp;

/// What bounds the fields of an index so far: equalities on its first fields, and whether the next
/// field is bounded below and above.
#[derive(Clone, Copy, Debug, PartialEq, Eq)]
pub struct Bounded {
    pub equal: usize,
    pub lower: bool,
    pub upper: bool,
}

impl Bounded {
    /// Before the first bound.
    pub fn new() -> Bounded
        ensures { result ≡ unbounded }
    {
        Bounded {
            equal: 0,
            lower: false,
            upper: false,
        }
    }

    // Whether the comparison may stand behind what bounds the field already.
    fn fits(self, op: CompareOp) -> bool
        ensures { result ≡ fits self op }
    {
        match op {
            CompareOp::Equal => !self.lower && !self.upper,
            CompareOp::NotEqual => false,
            CompareOp::Less | CompareOp::LessEqual => !self.upper,
            CompareOp::Greater | CompareOp::GreaterEqual => !self.lower,
        }
    }

    // With one more equality, where the field has a place behind those so far.
    fn with_equality(self, fields: &[Text]) -> Option<Bounded>
        ensures { result ≡ (if nat_lt self.equal (length fields.now) then Some (bounded_by self CompareOp.Equal) else None) }
    {
        if self.equal < fields.len() {
            return Some(Bounded {
                equal: self.equal + 1,
                ..self
            });
        }
        None
    }

    /// What bounds the fields with one more bound, or none where it isn't allowed.
    pub fn next(self, fields: &[Text], name: &Text, op: CompareOp) -> Option<Bounded>
        ensures { result ≡ next_bound fields.now self name.now op }
    {
        if !self.fits(op) || !is_next(fields, self.equal, name) {
            return None;
        }
        match op {
            CompareOp::Equal => self.with_equality(fields),
            CompareOp::NotEqual => Some(self),
            CompareOp::Less | CompareOp::LessEqual => Some(Bounded {
                upper: true,
                ..self
            }),
            CompareOp::Greater | CompareOp::GreaterEqual => Some(Bounded {
                lower: true,
                ..self
            }),
        }
    }
}

// Whether the field stands behind the equalities.
fn is_next(fields: &[Text], equal: usize, name: &Text) -> bool
    ensures { result ≡ is_next fields.now equal name.now }
{
    match fields.get(equal) {
        None => false,
        Some(field) => *field == *name,
    }
}
