//! The registers and locations in a test's list of names, without duplicates.
ghost use Rattle.std.specs.Prelude.{◌≡◌, ◌≤◌, ◌<◌, ◌∷◌, [], ◌++◌, filter, IfOk, OnOk};
ghost use Rattle.lw_base.specs.SeenLists.{all_registers, thread_registers, locations};
ghost use Rattle.lw_text.specs.inner.Resolved.{seen_of, is_listed};

use crate::site::Site;
use lw_base::{Cpu, Loc, MAX_LOCATIONS, MAX_THREADS, Reg, Seen, Sequence, Word};
use std::alloc::{AllocError, AllocFailed, Allocator};

/// Returns those of the registers of `threads` threads and of `len` locations that are among the sites: the registers by
/// thread and index, then the locations by index, in whatever order the sites are.
pub(crate) fn listed_in_order<A: Allocator>(
    alloc: A,
    sites: &[Site],
    threads: usize,
    len: usize,
) -> Result<Sequence<Seen, A>, AllocError>
    requires threads { threads ≤ MAX_THREADS }
    requires len { len ≤ MAX_LOCATIONS }
    ensures { IfOk result
        (λ seen. seen ≡ filter (is_listed sites.now) (all_registers threads ++ locations len)) }
{
    let mut seen = Sequence::new(alloc);
    for cpu in &Cpu::all()[..threads] {
        push_listed_registers(&mut seen, sites, *cpu)?;
    }
    push_listed_locations(&mut seen, sites, len)?;
    Ok(seen)
}

/// Appends to `seen` those of a thread's registers that are among the sites.
fn push_listed_registers<A: Allocator>(
    seen: &mut Sequence<Seen, A>,
    sites: &[Site],
    cpu: Cpu,
) -> Result<(), AllocFailed<Seen>>
    ensures { OnOk result (seen.new ≡ seen.old ++ filter (is_listed sites.now) (thread_registers cpu)) }
{
    for reg in &Reg::all() {
        let site = Site::Register(cpu.index() as Word, *reg);
        push_if_listed(seen, sites, site, Seen::Register(cpu, *reg))?;
    }
    Ok(())
}

/// Appends to `seen` those of the first `len` locations that are among the sites.
fn push_listed_locations<A: Allocator>(
    seen: &mut Sequence<Seen, A>,
    sites: &[Site],
    len: usize,
) -> Result<(), AllocFailed<Seen>>
    requires { len ≤ MAX_LOCATIONS }
    ensures { OnOk result (seen.new ≡ seen.old ++ filter (is_listed sites.now) (locations len)) }
{
    for loc in &Loc::all()[..len] {
        push_if_listed(seen, sites, Site::Location(*loc), Seen::Location(*loc))?;
    }
    Ok(())
}

/// Appends `item`, which is the register or location of `site`, to `seen` if its site is among the sites. Appends it once,
/// even if the sites have it several times.
fn push_if_listed<A: Allocator>(
    seen: &mut Sequence<Seen, A>,
    sites: &[Site],
    site: Site,
    item: Seen,
) -> Result<(), AllocFailed<Seen>>
    requires { seen_of site ≡ item }
    ensures { OnOk result (seen.new ≡ seen.old ++ filter (is_listed sites.now)
        (seen_of site ∷ [])) }
{
    for listed in sites {
        if listed.is_same(&site) {
            return seen.push(item);
        }
    }
    Ok(())
}
