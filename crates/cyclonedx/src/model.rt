//! The parts of a document, as the specification of CycloneDX 1.5 names them.

use crate::relations::Relation;
use serde::Serialize;

/// The document of `graph --format cyclonedx`: a CycloneDX bill of materials.
#[derive(Drop, Serialize)]
#[serde(rename_all = "camelCase")]
pub struct Bom<'a, 'r> {
    /// One of `CycloneDX`.
    pub bom_format: &'static str,
    /// One of `1.5`.
    pub spec_version: &'static str,
    /// A URN of a UUID that is made from the rest of the document.
    #[serde(skip_serializing_if = "Option::is_none")]
    pub serial_number: Option<String>,
    pub version: usize,
    pub metadata: BomMetadata<'a>,
    pub components: Vec<Component<'a>>,
    pub dependencies: Vec<Relation<'r>>,
}

/// The metadata of a document.
#[derive(Drop, Serialize)]
pub struct BomMetadata<'a> {
    /// The time that `SOURCE_DATE_EPOCH` sets, in UTC.
    #[serde(skip_serializing_if = "Option::is_none")]
    pub timestamp: Option<String>,
    pub tools: Tools,
    /// The package or the workspace that the document describes.
    pub component: Component<'a>,
    /// The selection: `nevgrasi:targets`, and `nevgrasi:side` if one is selected.
    pub properties: Vec<Property>,
}

/// The programs that made the document.
#[derive(Drop, Serialize)]
pub struct Tools {
    pub components: Vec<ToolComponent>,
}

/// A program.
#[derive(Drop, Serialize)]
pub struct ToolComponent {
    /// One of `application`.
    #[serde(rename = "type")]
    pub kind: &'static str,
    pub name: &'static str,
    pub version: String,
}

/// A package, or the workspace.
#[derive(Drop, Serialize)]
pub struct Component<'a> {
    /// One of `application` and `library`.
    #[serde(rename = "type")]
    pub kind: &'static str,
    /// The name of the component in `dependencies`.
    #[serde(rename = "bom-ref")]
    pub reference: String,
    pub name: &'a str,
    #[serde(skip_serializing_if = "Option::is_none")]
    pub version: Option<&'a str>,
    /// The checksum in the lock file.
    #[serde(skip_serializing_if = "Vec::is_empty")]
    pub hashes: Vec<Hash>,
    #[serde(skip_serializing_if = "Vec::is_empty")]
    pub licenses: Vec<LicenceChoice<'a>>,
    /// The package URL.
    #[serde(skip_serializing_if = "Option::is_none")]
    pub purl: Option<String>,
    #[serde(rename = "externalReferences", skip_serializing_if = "Vec::is_empty")]
    pub references: Vec<ExternalReference<'a>>,
    /// `nevgrasi:side`, and `nevgrasi:targets` if several targets are selected.
    #[serde(skip_serializing_if = "Vec::is_empty")]
    pub properties: Vec<Property>,
}

/// The checksum of a package's archive.
#[derive(Drop, Serialize)]
pub struct Hash {
    /// One of `SHA-256`.
    pub alg: &'static str,
    pub content: String,
}

/// The licence of a package.
#[derive(Drop, Serialize)]
#[serde(untagged)]
pub enum LicenceChoice<'a> {
    Expression(SpdxExpression),
    Named(NamedLicence<'a>),
}

/// An SPDX expression in canonical form, all of whose identifiers SPDX knows.
#[derive(Drop, Serialize)]
pub struct SpdxExpression {
    pub expression: String,
}

/// A licence that is given by a text, which is not an expression of known licences.
#[derive(Drop, Serialize)]
pub struct NamedLicence<'a> {
    pub license: LicenceName<'a>,
}

/// The text that a package has for its licence.
#[derive(Drop, Serialize)]
pub struct LicenceName<'a> {
    pub name: &'a str,
}

/// A page on a package.
#[derive(Drop, Serialize)]
pub struct ExternalReference<'a> {
    /// One of `vcs`, `website` and `documentation`.
    #[serde(rename = "type")]
    pub kind: &'static str,
    pub url: &'a str,
}

/// A name and a value for which the specification has no field.
#[derive(Drop, Serialize)]
pub struct Property {
    pub name: &'static str,
    pub value: String,
}
