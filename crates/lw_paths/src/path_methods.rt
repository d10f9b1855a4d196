//! Extending and reading paths and path assignments.
ghost use Rattle.std.specs.Prelude.{◌≡◌, ◌<◌, ◌≤◌, ◌++◌, [], ◌∷◌, length, map};
ghost use Rattle.lw_base.specs.Limits.{most_threads};
ghost use Rattle.lw_litmus.specs.Limits.{most_instructions};
ghost use Rattle.lw_paths.specs.Views.{path_of, assignment_of};

use crate::path::{Path, PathAssignment};
use lw_base::MAX_THREADS;
use lw_litmus::MAX_INSTRUCTIONS;

impl Path {
    /// Creates an empty path.
    pub(crate) fn new() -> Self
        ensures { path_of result ≡ [] }
    {
        Path {
            positions: [0; MAX_INSTRUCTIONS],
            len: 0,
        }
    }

    /// Returns the path with one more statement.
    pub(crate) fn with(self, position: u8) -> Self
        requires { length (path_of self) < most_instructions }
        ensures { path_of result ≡ path_of self ++ position ∷ [] }
    {
        let mut positions = self.positions;
        positions[self.len as usize] = position;
        Path {
            positions,
            len: self.len + 1,
        }
    }

    /// Returns the positions of the statements, first to last.
    pub fn as_slice(&self) -> &[u8]
        ensures { result.now ≡ path_of self.now }
    {
        &self.positions[..self.len as usize]
    }
}

impl PathAssignment {
    /// Creates an empty path assignment.
    pub(crate) fn new() -> Self
        ensures { assignment_of result ≡ [] }
    {
        PathAssignment {
            paths: [Path::new(); MAX_THREADS],
            len: 0,
        }
    }

    /// Returns the path assignment with the path of one more thread.
    pub(crate) fn with(self, path: Path) -> Self
        requires { length (assignment_of self) < most_threads }
        ensures { assignment_of result ≡ assignment_of self ++ path_of path ∷ [] }
    {
        let mut paths = self.paths;
        paths[self.len as usize] = path;
        PathAssignment {
            paths,
            len: self.len + 1,
        }
    }

    /// Returns the number of paths.
    pub fn len(&self) -> usize
        ensures { result ≡ length (assignment_of self.now) }
    {
        self.len as usize
    }

    /// Returns the paths, the first thread's first.
    pub fn as_slice(&self) -> &[Path]
        ensures { map path_of result.now ≡ assignment_of self.now }
    {
        &self.paths[..self.len as usize]
    }
}
