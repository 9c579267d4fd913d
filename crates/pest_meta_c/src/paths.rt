//! The calls of paths in one list.
ghost use Rattle.std.specs.Prelude.{◌≡◌, ◌++◌, IfOk, OnOk, map};
ghost use Rattle.matcher_engine.specs.Traces.{paths_in};
ghost use Rattle.pest_meta_c.specs.PathCalls.{calls_in, with_path};

use matcher_code::state::OpenCall;
use std::alloc::{AllocError, Global};

/// A call of a path: the index of the path, the index of its rule, and the byte at which it begins.
#[repr(C)]
#[derive(Clone, Copy, Debug)]
pub struct PathCall {
    pub path: usize,
    pub rule: usize,
    pub start: usize,
}

/// Appends the calls of the path of a number.
fn push_path(list: &mut Vec<PathCall>, path: usize, calls: &[OpenCall]) -> Result<(), AllocError>
    ensures { OnOk result (list.new.items ≡ list.old.items ++ map (with_path path) calls.now) }
{
    for call in calls {
        list.push(PathCall {
            path,
            rule: call.rule as usize,
            start: call.start,
        })?;
    }
    Ok(())
}

/// Returns the calls of paths, the outermost of each path first; paths are numbered from 0. The only error is
/// an allocation failure.
pub(crate) fn list_calls(
    alloc: Global,
    paths: &[Vec<OpenCall>],
) -> Result<Vec<PathCall>, AllocError>
    ensures { IfOk result (λ list. list.items ≡ calls_in 0 (paths_in paths.now)) }
{
    let mut list = Vec::new(alloc);
    for (path, calls) in paths.iter().enumerate() {
        push_path(&mut list, path, calls.as_slice())?;
    }
    Ok(list)
}
