// A filesystem for tests, which records what reached it.
ghost use Rattle.std.specs.Prelude.{◌≡◌, false, refl};
ghost use Rattle.fuse_dispatch.specs.Defaults.{default_answer};

use fuse_config::KernelConfig;
use fuse_request::Request;
use fuse_testing::{Argument, Probe};
use fuse_wire::{Errno, InitFlags};
use std::alloc::{AllocError, Global};
use std::sync::{Mutex, Wait};

/// A call as it reached a filesystem.
#[derive(Drop)]
pub(crate) struct Recorded {
    /// The number of the request, the user, the group and the process.
    pub(crate) asker: (u64, u32, u32, u32),
    pub(crate) method: &'static str,
    pub(crate) arguments: Vec<Argument>,
    /// Names and data, each with a zero byte behind it.
    pub(crate) texts: Vec<u8>,
}

/// A filesystem that asks for some capabilities, records what reaches it, as long as there is memory, and answers
/// everything by default.
#[derive(Drop)]
pub(crate) struct Recording<R> {
    rt: R,
    alloc: Global,
    wants: InitFlags,
    calls: Mutex<Vec<Recorded>>,
}

/// The user, the group, the process and the number of a request.
fn asker_of(request: &Request) -> (u64, u32, u32, u32) {
    (
        request.unique().0,
        request.uid(),
        request.gid(),
        request.pid(),
    )
}

/// Names and data, each with a zero byte behind it.
fn joined(alloc: Global, texts: &[&[u8]]) -> Result<Vec<u8>, AllocError> {
    let mut all = Vec::new(alloc);
    for text in texts {
        all.extend_from_slice(text)?;
        all.push(0)?;
    }
    Ok(all)
}

impl<R: Wait> Recording<R> {
    /// It asks for these capabilities, and nothing reached it yet.
    pub(crate) fn new(rt: R, alloc: Global, wants: InitFlags) -> Recording<R> {
        Recording {
            rt,
            alloc,
            wants,
            calls: Mutex::new(Vec::new(alloc)),
        }
    }

    /// What reached it since this was asked last.
    pub(crate) fn take(&self) -> Vec<Recorded> {
        let mut calls = Vec::new(self.alloc);
        std::mem::swap(&mut calls, &mut self.calls.lock(&self.rt));
        calls
    }

    fn record(
        &self,
        request: &Request,
        method: &'static str,
        arguments: &[Argument],
        texts: &[&[u8]],
    ) -> Result<(), AllocError> {
        let recorded = Recorded {
            asker: asker_of(request),
            method,
            arguments: Vec::from_slice(self.alloc, arguments)?,
            texts: joined(self.alloc, texts)?,
        };
        let _ = self.calls.lock(&self.rt).push(recorded);
        Ok(())
    }
}

impl<R: Wait> Probe for Recording<R> {
    ghost own = { λ call answer. default_answer call ≡ answer };

    const DEFERS: bool = false;

    ghost DEFERS = { false };

    fn started(&mut self, request: &Request, config: &mut KernelConfig) -> Result<(), Errno> {
        let _ = self.record(request, "init", &[], &[]);
        let _ = config.add_capabilities(self.wants);
        Ok(())
    }

    fn called(
        &self,
        request: &Request,
        method: &'static str,
        arguments: &[Argument],
        texts: &[&[u8]],
    ) {
        let _ = self.record(request, method, arguments, texts);
    }

    fn destroyed(&mut self) {
        let recorded = Recorded {
            asker: (0, 0, 0, 0),
            method: "destroy",
            arguments: Vec::new(self.alloc),
            texts: Vec::new(self.alloc),
        };
        let _ = self.calls.lock(&self.rt).push(recorded);
    }

    ghost allows_default = { λ call. refl };
}
