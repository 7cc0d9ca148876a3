//! A manifest as a TOML document.
ghost use Rattle.edit_document.specs.Forms.{IfDocument};
ghost use Rattle.std.specs.Prelude.{◌≡◌, Some, IfErr, IfOk, IsUtf8, MatchResult, OnOk, length};
ghost use Rattle.edit_base.specs.Errors.{IsMemory};
ghost use Rattle.edit_syntax.specs.Grammar.{Text};
ghost use Rattle.edit_syntax.specs.SyntaxTokens.{IsTokenizeError};
ghost use Rattle.edit_tree.specs.Assertions.{IsDocument};
ghost use Rattle.edit_tree.specs.DocumentViews.{ShowsTree};
ghost use Rattle.edit_manifest.specs.Loaded.{IsBadManifest};

use edit_base::errors::{CargoResult, Error};
use edit_document::Document;
use std::alloc::Global;
use std::fmt;

/// A manifest as a TOML document.
#[derive(Drop)]
pub struct Manifest {
    pub document: Document,
}

impl Manifest {
    /// Parses a text. `Error::NotToml`, with a byte offset near the error, where it is not TOML.
    pub fn read(alloc: Global, text: &str) -> CargoResult<Manifest>
        ensures bytes { IfOk result (λ m. m.document.bytes ≡ text.now) }
        ensures found { IfOk result
            (λ m. (form : Text) × IsDocument text.now form × ShowsTree m.document form) }
        ensures only { IfDocument text.now (λ form. MatchResult result (λ m. ShowsTree m.document form)
            IsMemory) }
        ensures error { IfErr result (IsTokenizeError (length text.now)) }
    {
        let document = Document::read(alloc, text)?;
        Ok(Manifest { document })
    }

    /// Parses the bytes of a file. `Error::NotUtf8` where they are not UTF-8, else `Error::NotToml` where
    /// they are not TOML.
    pub fn read_bytes(alloc: Global, bytes: &[u8]) -> CargoResult<Manifest>
        ensures bytes { IfOk result (λ m. m.document.bytes ≡ bytes.now) }
        ensures utf8 { OnOk result (IsUtf8 bytes.now) }
        ensures found { IfOk result
            (λ m. (form : Text) × IsDocument bytes.now form × ShowsTree m.document form) }
        ensures error { IfErr result (IsBadManifest bytes.now) }
    {
        let Ok(text) = str::from_utf8(bytes) else {
            return Err(Error::NotUtf8);
        };
        Manifest::read(alloc, text)
    }

    /// Returns a deep copy of the manifest.
    pub fn try_clone(&self, alloc: Global) -> CargoResult<Manifest>
        ensures same { IfOk result (λ m. m ≡ self.now) }
        ensures error { IfErr result IsMemory }
    {
        let document = self.document.try_clone(alloc)?;
        Ok(Manifest { document })
    }
}

impl fmt::Display for Manifest {
    ghost output = { λ m. Some m.document.bytes };

    fn fmt<W: fmt::Write>(&self, f: &mut fmt::Formatter<W>) -> fmt::Result {
        f.write_str(self.document.as_str())
    }
}

impl fmt::Debug for Manifest {
    fn fmt<W: fmt::Write>(&self, f: &mut fmt::Formatter<W>) -> fmt::Result {
        write!(f, "Manifest({:?})", self.document.as_str())
    }
}
