// Where a leaf lies.
use cells::Name;

/// A mount and a path.
#[derive(Drop)]
pub struct Names {
    pub mount: Name,
    pub path: Name,
}

/// A mount and a path, `MOUNT/PATH`, and the key of the metadata there.
#[derive(Drop)]
pub struct Place {
    pub names: Names,
    pub location: Name,
    pub key: Name,
}
