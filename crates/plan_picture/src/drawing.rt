//! A plan with the places of its marks.

ghost use Rattle.std.specs.Prelude.{◌≡◌, length};
ghost use Rattle.picture_layout.specs.Places.{HasLooks};

use crate::lit_plan::LitPlan;
use picture_layout::Looks;
use std::marker::Model;

/// A plan with a look for each node and each link.
///
/// Contracts see it as both.
#[derive(Drop)]
pub struct Drawing<'a> {
    plan: &'a LitPlan<'a>,
    looks: &'a Looks,
}

impl<'a> Model for Drawing<'a> {
    ghost use Rattle.std.specs.Prelude.{length};
    ghost use Rattle.picture_layout.specs.Places.{HasLooks};
    ghost use Rattle.plan_picture.specs.Pictures.{Drawn};

    ghost Value = { Drawn };

    ghost view = { λ a. record { of = a.plan.now; looks = a.looks.now } };

    ghost invariant = { λ a. HasLooks a.looks.now a.plan.now.parts.nodes (length a.plan.now.parts.links) };
}

impl<'a> Drawing<'a> {
    /// The plan with these looks.
    pub fn new(plan: &'a LitPlan<'a>, looks: &'a Looks) -> Self
        requires { HasLooks looks.now plan.now.parts.nodes (length plan.now.parts.links) }
        ensures plan { result.of ≡ plan.now }
        ensures looks { result.looks ≡ looks.now }
    {
        Drawing { plan, looks }
    }

    /// The plan.
    pub fn plan(&self) -> &'a LitPlan<'a>
        ensures { result.now ≡ self.now.of }
    {
        self.plan
    }

    /// The looks.
    pub fn looks(&self) -> &'a Looks
        ensures value { result.now ≡ self.now.looks }
        ensures all { HasLooks self.now.looks self.now.of.parts.nodes (length self.now.of.parts.links) }
    {
        self.looks
    }
}
