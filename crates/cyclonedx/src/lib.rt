//! Software bills of materials: CycloneDX 1.5 documents in JSON, with package URLs, serial numbers that are made from
//! the content, and checksums from lock files of Cargo.
#![tactic(auto)]

pub mod laws;
mod lock;
mod model;
mod purl;
mod reading;
mod relations;
mod serial;
mod sources;

pub use lock::{LockFile, LockedPackage};
pub use model::{
    Bom, BomMetadata, Component, ExternalReference, Hash, LicenceChoice, LicenceName, NamedLicence,
    Property, SpdxExpression, ToolComponent, Tools,
};
pub use purl::package_url;
pub use reading::{LockFileError, LockFileFault, parse_lock_file};
pub use relations::{Edge, Node, Relation, relations_of};
pub use serial::serial_number;
pub use sources::Source;
