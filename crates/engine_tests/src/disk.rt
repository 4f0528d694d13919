// The real files.
use site_base::Texts;
use site_edge::{DiskFiles, FileFault, Files};
use std::alloc::{AllocError, Global};
use std::os::unix::fs::symlink;
use std::process::Abort;
use std::test::Fail;
use std::{fs, io};

/// The files of a new folder. What is written to each is its own name.
const FILES: [&str; 6] = ["/a.conf", "/b/c", "/b/d/e.conf", "/b.conf", "/\"\n", "/.f"];

/// The links of a new folder: what each leads to, and where it stands.
const LINKS: [(&str, &str); 4] = [
    ("a.conf", "/l"),
    ("b", "/m"),
    ("gone", "/n"),
    ("a.conf/b", "/o"),
];

/// What is listed of a new folder.
const LISTED: [&str; 11] = [
    "/\"\n",
    "/.f",
    "/a.conf",
    "/b.conf",
    "/b/c",
    "/b/d/e.conf",
    "/l",
    "/m/c",
    "/m/d/e.conf",
    "/n",
    "/o",
];

/// The path of a place in a folder.
fn path(alloc: Global, top: &str, place: &str) -> Result<String, AllocError> {
    format!(in alloc; "{top}{place}")
}

/// A new folder with files, folders and links in it.
fn make_folder(rt: &HostRuntime) -> Result<String, Fail> {
    for i in 0..1000 {
        let top = format!(in rt.alloc(); "/tmp/site_edge_{i}")?;
        if fs::create_dir(rt, &top).is_ok() {
            fill_folder(rt, &top)?;
            return Ok(top);
        }
    }
    Err(Fail::from("no folder could be made"))
}

fn fill_folder(rt: &HostRuntime, top: &str) -> io::Result<()> {
    fs::create_dir_all(rt, path(rt.alloc(), top, "/b/d")?)?;
    for file in &FILES {
        add_file(rt, top, file)?;
    }
    for (to, link) in &LINKS {
        add_link(rt, top, to, link)?;
    }
    Ok(())
}

fn add_file(rt: &HostRuntime, top: &str, file: &str) -> io::Result<()> {
    fs::write(rt, path(rt.alloc(), top, file)?, file)
}

fn add_link(rt: &HostRuntime, top: &str, to: &str, link: &str) -> io::Result<()> {
    symlink(rt, to, path(rt.alloc(), top, link)?.as_str())
}

/// Expects these names, once that of the folder is taken off.
fn expect_names(rt: &impl Abort, names: &Texts, top: &str, expected: &[&str]) {
    assert!(rt; names.len() == expected.len());
    for (name, expected) in names.as_slice().iter().zip(expected) {
        assert!(rt; name.as_str().strip_prefix(top) == Some(*expected));
    }
}

/// Expects that these names are listed of a place in a folder.
fn expect_listed<R: Abort + AllocGlobal, F: Files>(
    rt: &R,
    files: &mut F,
    top: &str,
    place: &str,
    expected: &[&str],
) -> Result<(), Fail> {
    let folder = path(rt.alloc(), top, place)?;
    expect_names(rt, &files.names(&folder)?, top, expected);
    Ok(())
}

/// Expects that a place in a folder can't be listed.
fn expect_unlisted<R: Abort + AllocGlobal, F: Files>(
    rt: &R,
    files: &mut F,
    top: &str,
    place: &str,
) -> Result<(), AllocError> {
    let folder = path(rt.alloc(), top, place)?;
    assert!(rt; files.names(&folder) == Err(FileFault::Failed));
    Ok(())
}

/// Expects that a place in a folder has a file with these bytes.
fn expect_file<R: Abort + AllocGlobal, F: Files>(
    rt: &R,
    files: &mut F,
    top: &str,
    place: &str,
    bytes: &[u8],
) -> Result<(), AllocError> {
    let file = path(rt.alloc(), top, place)?;
    let is_read = match files.read(&file) {
        Ok(Some(content)) => content.as_slice() == bytes,
        _ => false,
    };
    assert!(rt; is_read);
    Ok(())
}

/// Expects that a place in a folder has no file.
fn expect_no_file<R: Abort + AllocGlobal, F: Files>(
    rt: &R,
    files: &mut F,
    top: &str,
    place: &str,
) -> Result<(), AllocError> {
    let file = path(rt.alloc(), top, place)?;
    assert!(rt; files.read(&file) == Ok(None));
    Ok(())
}

/// Expects that a place in a folder can't be read.
fn expect_unread<R: Abort + AllocGlobal, F: Files>(
    rt: &R,
    files: &mut F,
    top: &str,
    place: &str,
) -> Result<(), AllocError> {
    let file = path(rt.alloc(), top, place)?;
    assert!(rt; files.read(&file) == Err(FileFault::Failed));
    Ok(())
}

fn list_all<R: Abort + AllocGlobal, F: Files>(
    rt: &R,
    files: &mut F,
    top: &str,
) -> Result<(), Fail> {
    expect_listed(rt, files, top, "", &LISTED)?;
    expect_listed(rt, files, top, "/b/", &["/b/c", "/b/d/e.conf"])?;
    for missing in &["/none", "/b.conf", "/b.conf/c", "/b\0c", "/n"] {
        expect_listed(rt, files, top, missing, &[])?;
    }
    Ok(())
}

fn read_all<R: Abort + AllocGlobal, F: Files>(
    rt: &R,
    files: &mut F,
    top: &str,
) -> Result<(), AllocError> {
    expect_file(rt, files, top, "/m/c", b"/b/c")?;
    for missing in &["/n", "/none", "/a.conf/b", "/a\0b", "/o"] {
        expect_no_file(rt, files, top, missing)?;
    }
    expect_unread(rt, files, top, "")
}

#[test]
fn real_files_are_read_and_listed(rt: HostRuntime) -> Result<(), Fail> {
    let top = make_folder(&rt)?;
    let mut files = DiskFiles::new(&rt);
    list_all(&rt, &mut files, &top)?;
    read_all(&rt, &mut files, &top)?;
    fs::remove_dir_all(&rt, &top)?;
    Ok(())
}

/// Makes two links in a new folder that lead nowhere else than back: one to the folder that it stands in, and one, in place of a link, to itself.
fn make_loops(rt: &HostRuntime, top: &str) -> io::Result<()> {
    add_link(rt, top, ".", "/b/d/loop")?;
    fs::remove_file(rt, path(rt.alloc(), top, "/o")?)?;
    add_link(rt, top, "o", "/o")
}

fn fail_all<R: Abort + AllocGlobal, F: Files>(
    rt: &R,
    files: &mut F,
    top: &str,
) -> Result<(), AllocError> {
    for folder in &["/b", "/", "/o"] {
        expect_unlisted(rt, files, top, folder)?;
    }
    for link in &["/b/d/loop", "/o"] {
        expect_unread(rt, files, top, link)?;
    }
    Ok(())
}

#[test]
fn links_that_lead_to_themselves_are_faults(rt: HostRuntime) -> Result<(), Fail> {
    let top = make_folder(&rt)?;
    make_loops(&rt, &top)?;
    fail_all(&rt, &mut DiskFiles::new(&rt), &top)?;
    fs::remove_dir_all(&rt, &top)?;
    Ok(())
}
