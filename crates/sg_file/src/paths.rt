// The paths of a file, of its draft and of their folder.
use std::fs;
use std::io::{self, ErrorKind};
use std::path::PathBuf;

/// Where a file is. All memory for its paths is taken as it is opened.
#[derive(Drop)]
pub(crate) struct Paths {
    /// The file, with no symbolic link on the way.
    pub(crate) file: PathBuf,
    /// Its draft: the same with `.new` behind it.
    pub(crate) draft: String,
    /// The folder of both.
    pub(crate) folder: PathBuf,
}

impl Paths {
    /// The paths of a file that exists.
    ///
    /// # Errors
    /// The system refused a call, or memory was refused.
    pub(crate) fn of(rt: &HostRuntime, path: &str) -> io::Result<Paths> {
        let alloc = rt.alloc();
        let file = fs::canonicalize(rt, path)?;
        let mut draft = String::new(alloc);
        draft.push_str(file.as_str())?;
        draft.push_str(".new")?;
        let Some(parent) = file.parent() else {
            return Err(io::Error::from(ErrorKind::IsADirectory));
        };
        let folder = parent.to_path_buf(alloc)?;
        Ok(Paths {
            file,
            draft,
            folder,
        })
    }
}
