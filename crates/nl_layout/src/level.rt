//! How far a block stands above the data of its file.
ghost use Rattle.std.specs.Prelude.{◌≡◌, ◌≤◌, ℕ};

use std::marker::Model;

/// 0 for data, and 1 to 3 for the nodes above it, the lowest nodes first. All nodes of a chain have 1.
#[derive(Clone, Copy, PartialEq, Eq)]
pub struct Level {
    height: u8,
}

impl Model for Level {
    ghost Value = { ℕ };

    ghost view = { λ a. a.height };

    ghost invariant = { λ a. a.height ≤ 3 };

    ghost inverse = { λ n. record { height = n } };
}

impl Level {
    pub fn new(height: u8) -> Self
        requires { height ≤ 3 }
        ensures { result ≡ height }
    {
        Level { height }
    }

    pub fn get(self) -> u8
        ensures value { result ≡ self }
        ensures most { result ≤ 3 }
    {
        self.height
    }
}
