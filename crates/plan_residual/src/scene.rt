//! What a search goes through.
ghost use Rattle.std.specs.Prelude.{◌≡◌, ◌+◌, ◌<◌, length};
ghost use Rattle.plan_residual.specs.Residual.{start_of};
ghost use Rattle.plan_residual.specs.Rows.{IsNextFrom, step_count};
ghost use Rattle.plan_residual.specs.Scene.{IsScene};
ghost use Rattle.plan_residual.specs.Sweep.{right_at};

use crate::order::right_at;
use chains::Chains;
use rights_roll::roll::Roll;
use std::marker::Model;
use water_model::types::{Basin, MonthRecord};

/// A month of a basin with its own plan, the roll of the rights, and the steps that leave each node.
#[derive(Drop)]
pub struct Scene<'a> {
    pub basin: &'a Basin,
    pub roll: &'a Roll,
    pub month: &'a MonthRecord,
    pub rows: &'a Chains,
}

impl<'a> Model for Scene<'a> {
    ghost use Rattle.plan_residual.specs.Scene.{SceneView, IsScene, scene};

    ghost Value = { SceneView };

    ghost view = { λ s. scene s.basin.now s.roll.now s.month.now s.rows.now };

    ghost invariant = { λ s. IsScene (scene s.basin.now s.roll.now s.month.now s.rows.now) };
}

impl<'a> Scene<'a> {
    /// The right at an index of the order of seniority. It says, too, what each scene keeps.
    pub fn right_at(&self, position: usize) -> u32
        requires { position < length self.now.basin.rights }
        ensures value { result ≡ right_at self.now.basin position }
        ensures within { result < length self.now.basin.rights }
        ensures scene { IsScene self.now }
    {
        right_at(self.basin, self.roll, position)
    }

    /// The first step that leaves a node.
    pub fn first(&self, node: u32) -> Option<u32>
        requires { node < length self.now.basin.nodes }
        ensures { IsNextFrom self.now.basin node 0 result }
    {
        self.rows.first_of(node)
    }

    /// The next step that leaves the same node as this one.
    pub fn next(&self, step: u32) -> Option<u32>
        requires { step < step_count self.now.basin }
        ensures { let b = self.now.basin in IsNextFrom b (start_of b step) (step + 1) result }
    {
        self.rows.next_of(step)
    }
}
