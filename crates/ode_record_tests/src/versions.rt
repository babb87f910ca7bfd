//! Lists of versions.
ghost use Rattle.std.specs.Prelude.{IfOk};
ghost use Rattle.ode_versions.specs.Versions.{IsVersionList};

use crate::equal::equal;
use ode_value::List;
use ode_versions::{Version, VersionError, VersionList};
use std::alloc::{AllocError, Global};
use std::test::Fail;

// A list of one version.
fn one(alloc: Global) -> Result<VersionList, AllocError>
    ensures { IfOk result IsVersionList }
{
    let mut versions = List::new(alloc);
    versions.push(Version {
        number: 1,
        parent: None,
    })?;
    Ok(VersionList { versions, last: 1 })
}

#[test]
fn a_list_with_a_gap(rt: HostRuntime) -> Result<(), Fail> {
    let mut list = one(rt.alloc())?;
    equal(&rt, &list.derive(1), &Ok(2));
    equal(&rt, &list.derive(2), &Ok(3));
    equal(&rt, &list.drop_version(2), &Ok(()));
    equal(&rt, &list.find(Some(2)), &None);
    equal(&rt, &list.find(Some(3)), &Some(3));
    equal(&rt, &list.find(None), &Some(3));
    equal(&rt, &list.drop_version(3), &Ok(()));
    equal(&rt, &list.newest(), &1);
    equal(&rt, &list.drop_version(1), &Err(VersionError::LastVersion));
    equal(&rt, &list.derive(1), &Ok(4));
    equal(&rt, &list.derive(3), &Err(VersionError::NoVersion));
    Ok(())
}
