// Files that belong together, replaced by one writer so that the folder at no moment holds all of them with some old and some new. The last of them is the one
// without which the others are refused: it is moved away before the first is replaced, and comes back last.
use std::fs::{OpenFile, OpenOptions};
use std::io::{ErrorKind, Print, Write};
use std::rt::Files;
use std::{fs, io};

// Why the files are not new: the drafts could not be written, and all is as it was, or a file could not take its name, and then the last may be missing.
#[derive(Clone, Copy, Debug, PartialEq, Eq)]
pub enum ReplaceError {
    NotWritten,
    NotNamed,
}

// A file's name, that of its draft, and the bytes that it is to have.
#[derive(Clone, Copy, Debug, PartialEq, Eq)]
struct Draft<'a> {
    name: &'a str,
    draft: &'a str,
    bytes: &'a [u8],
}

// The files before the last, in the order in which they take their names, the last, and the name of the old last file meanwhile.
#[derive(Clone, Copy, Debug, PartialEq, Eq)]
struct Together<'a> {
    others: &'a [Draft<'a>],
    last: Draft<'a>,
    last_old: &'a str,
}

// The folder's names as they are now reach the disk before any later change does.
fn names_to_disk<R: Files>(rt: &R) {
    if let Ok(folder) = fs::open(rt, ".") {
        let _ = folder.sync_all();
    }
}

impl Draft<'_> {
    // Writes the draft whole, in a file of its own, which reaches the disk: what stood under its name, a link too, is gone first.
    fn write<R: Files>(&self, rt: &R) -> io::Result<()> {
        self.remove(rt);
        let mut file = OpenOptions::new()
            .write(true)
            .create_new(true)
            .open(rt, self.draft)?;
        let put = crate::write_all(&mut file, self.bytes);
        let kept = file.sync_all();
        put?;
        kept
    }

    // Removes the draft, if it is there.
    fn remove<R: Files>(&self, rt: &R) {
        let _ = fs::remove_file(rt, self.draft);
    }

    // The draft takes the file's name.
    fn take_name<R: Files>(&self, rt: &R) -> io::Result<()> {
        fs::rename(rt, self.draft, self.name)
    }
}

impl Together<'_> {
    // Writes the drafts.
    fn write<R: Files>(&self, rt: &R) -> io::Result<()> {
        for draft in self.others {
            draft.write(rt)?;
        }
        self.last.write(rt)
    }

    // Removes the drafts.
    fn no_drafts<R: Files>(&self, rt: &R) {
        self.last.remove(rt);
        for draft in self.others {
            draft.remove(rt);
        }
    }

    // Moves the old last file away. What is told: whether there was one. What stands under the other name goes first: were it the same file, a move would do nothing.
    fn last_away<R: Files>(&self, rt: &R) -> io::Result<bool> {
        let _ = fs::remove_file(rt, self.last_old);
        match fs::rename(rt, self.last.name, self.last_old) {
            Ok(()) => Ok(true),
            Err(e) if e.kind() == ErrorKind::NotFound => Ok(false),
            Err(e) => Err(e),
        }
    }

    // The new files before the last take their names, one after the other. What is told: which is the first that cannot.
    fn name_others<R: Files>(&self, rt: &R) -> Option<usize> {
        self.others
            .iter()
            .position(|draft| draft.take_name(rt).is_err())
    }

    // With no last file, and the old one moved away or not, which a type of its own would say no plainer: the new files take their names, the last one at the end. Where the first cannot, the old last file comes back if it
    // was moved away, and the drafts go; where a later one cannot, its draft and those after it stay, since the names of those before it are taken.
    fn name_all<R: Files>(&self, rt: &R, moved: bool) -> Result<(), ReplaceError> {
        names_to_disk(rt);
        if let Some(unnamed) = self.name_others(rt) {
            if unnamed == 0 {
                if moved {
                    let _ = fs::rename(rt, self.last_old, self.last.name);
                }
                self.no_drafts(rt);
            }
            return Err(ReplaceError::NotNamed);
        }
        names_to_disk(rt);
        if self.last.take_name(rt).is_err() {
            return Err(ReplaceError::NotNamed);
        }
        names_to_disk(rt);
        let _ = fs::remove_file(rt, self.last_old);
        Ok(())
    }

    // The new files take their names; in between there is no last file.
    fn take_names<R: Files>(&self, rt: &R) -> Result<(), ReplaceError> {
        match self.last_away(rt) {
            Ok(moved) => self.name_all(rt, moved),
            Err(_) => {
                self.no_drafts(rt);
                Err(ReplaceError::NotNamed)
            }
        }
    }

    // The drafts, if all were written, take the names of the files.
    fn replace<R: Files>(&self, rt: &R) -> Result<(), ReplaceError> {
        if self.write(rt).is_err() {
            self.no_drafts(rt);
            return Err(ReplaceError::NotWritten);
        }
        self.take_names(rt)
    }
}

// `circuits.rec` of these bytes. Names are written out: without heap none can be put together.
fn circuits_draft(bytes: &[u8]) -> Draft<'_> {
    Draft {
        name: "circuits.rec",
        draft: "circuits.rec.new",
        bytes,
    }
}

// `fibres.rec` of these bytes.
fn fibres_draft(bytes: &[u8]) -> Draft<'_> {
    Draft {
        name: "fibres.rec",
        draft: "fibres.rec.new",
        bytes,
    }
}

// Replaces these files and then `assign.rec`, which has these bytes.
fn replace_with_assignments<R: Files>(
    rt: &R,
    others: &[Draft<'_>],
    assigns: &[u8],
) -> Result<(), ReplaceError> {
    let last = Draft {
        name: "assign.rec",
        draft: "assign.rec.new",
        bytes: assigns,
    };
    let files = Together {
        others,
        last,
        last_old: "assign.rec.old",
    };
    files.replace(rt)
}

// Replaces line.rec and circuits.rec by files of these bytes. At every moment there is the old pair, or the new pair, or no line.rec.
pub fn replace_records<R: Files>(rt: &R, line: &[u8], circuits: &[u8]) -> Result<(), ReplaceError> {
    let last = Draft {
        name: "line.rec",
        draft: "line.rec.new",
        bytes: line,
    };
    let files = Together {
        others: &[circuits_draft(circuits)],
        last,
        last_old: "line.rec.old",
    };
    files.replace(rt)
}

// Replaces fibres.rec and assign.rec by files of these bytes. At every moment there is the old pair, or the new pair, or no assign.rec.
pub fn replace_lists<R: Files>(rt: &R, fibres: &[u8], assigns: &[u8]) -> Result<(), ReplaceError> {
    replace_with_assignments(rt, &[fibres_draft(fibres)], assigns)
}

// Replaces circuits.rec, fibres.rec and assign.rec by files of these bytes. At every moment there are the old three, or the new three, or no assign.rec.
pub fn replace_plan<R: Files>(
    rt: &R,
    circuits: &[u8],
    fibres: &[u8],
    assigns: &[u8],
) -> Result<(), ReplaceError> {
    let others = [circuits_draft(circuits), fibres_draft(fibres)];
    replace_with_assignments(rt, &others, assigns)
}

// Prints a text, or what is said where the files that it tells of could not be written, or not be named.
pub fn print_replaced<P: Print>(
    rt: &P,
    replaced: Result<(), ReplaceError>,
    text: &[u8],
    not_written: &[u8],
    not_named: &[u8],
) {
    let told = match replaced {
        Ok(()) => text,
        Err(ReplaceError::NotWritten) => not_written,
        Err(ReplaceError::NotNamed) => not_named,
    };
    let _ = crate::write_output(rt, told);
}
