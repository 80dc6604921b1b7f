//! The files of the system.
use crate::real::RealFiles;
use cet_base::{Failed, Files};
use std::fs;
use std::os::unix::fs::{PermissionsExt, symlink};
use std::test::Fail;

const FOLDER: &str = "cet_real_files_test";

// A new file, files with permissions of their own, one of them behind a link, and a file in a folder that is not there.
#[test]
fn replaces_real_files(rt: HostRuntime) -> Result<(), Fail> {
    let _ = fs::remove_dir_all(&rt, FOLDER);
    fs::create_dir(&rt, FOLDER)?;
    for (name, mode) in [
        ("cet_real_files_test/.cet-0.tmp", 0o644),
        ("cet_real_files_test/kept", 0o750),
        ("cet_real_files_test/target", 0o600),
    ] {
        fs::write(&rt, name, "the old bytes")?;
        fs::set_permissions(&rt, name, fs::Permissions::from_mode(mode))?;
    }
    symlink(&rt, "target", "cet_real_files_test/link")?;
    let mut files = RealFiles { rt: &rt, faults: 0 };
    for (name, bytes, answer) in [
        ("cet_real_files_test/new", "new", Ok(())),
        ("cet_real_files_test/kept", "", Ok(())),
        ("cet_real_files_test/link", "linked", Ok(())),
        ("cet_real_files_test/absent/new", "new", Err(Failed)),
        ("cet_real_files_test", "new", Err(Failed)),
    ] {
        assert_eq!(rt; files.replace(name, bytes.as_bytes()), answer, "for {name}");
    }
    assert_eq!(rt; files.faults, 2);
    for (name, bytes, mode) in [
        ("cet_real_files_test/.cet-0.tmp", "the old bytes", 0o644),
        ("cet_real_files_test/kept", "", 0o750),
        ("cet_real_files_test/target", "linked", 0o600),
    ] {
        assert_eq!(rt;
            fs::read_to_string(&rt, name)?.as_str(),
            bytes,
            "for {name}"
        );
        assert_eq!(rt; fs::metadata(&rt, name)?.permissions().mode() & 0o777, mode);
    }
    assert_eq!(rt;
        fs::read_to_string(&rt, "cet_real_files_test/new")?.as_str(),
        "new"
    );
    assert!(rt; fs::symlink_metadata(&rt, "cet_real_files_test/link")?.is_symlink());
    // Nothing else was left behind.
    assert_eq!(rt; fs::read_dir(&rt, FOLDER)?.count(), 5);
    fs::remove_dir_all(&rt, FOLDER)?;
    Ok(())
}
