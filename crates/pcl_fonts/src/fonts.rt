//! The fonts that a job has sent.

ghost use Rattle.std.specs.Prelude.{◌≡◌};
ghost use Rattle.pcl_fonts.specs.Table.{is_there};

use crate::glyph::Glyph;
use crate::header::{FontInfo, FontType, Header};
use indexmap::IndexMap;
use pcl_base::{CallFault, Dpi, Kind, Profile};
use std::alloc::Global;
use std::marker::Model;

/// What a font control does (`ESC*c#F`, docs/LANGUAGE.md, "Soft fonts").
#[derive(Clone, Copy, Debug, PartialEq, Eq)]
pub enum FontControl {
    /// Deletes all fonts.
    All,
    /// Deletes the temporary fonts.
    Temporary,
    /// Deletes the font of the ID.
    One,
    /// Deletes the character of the ID and the code.
    Character,
    /// Makes the font of the ID temporary.
    MakeTemporary,
    /// Makes the font of the ID permanent.
    MakePermanent,
}

/// A font with its characters.
#[derive(Drop)]
pub struct Entry<'a> {
    pub info: FontInfo,
    pub font_type: FontType,
    pub is_permanent: bool,
    /// How many deletions of temporary fonts were counted when it was sent or marked.
    pub deletions: u16,
    pub characters: IndexMap<u8, Glyph<'a>>,
}

impl<'a> Entry<'a> {
    /// Whether it is still there after this many deletions of temporary fonts.
    fn is_there(&self, deletions: u16) -> bool
        ensures { result ≡ is_there deletions self.now }
    {
        self.is_permanent || self.deletions == deletions
    }
}

/// The soft fonts that are there, by ID, and their characters, by code. Patterns stay in the job.
#[derive(Drop)]
pub struct Fonts<'a> {
    // A temporary one that a deletion took is looked past, until all of these go at once.
    entries: IndexMap<u16, Entry<'a>>,
    // How many deletions of temporary fonts came since then.
    deletions: u16,
    alloc: Global,
}

impl<'a> Model for Fonts<'a> {
    ghost use Rattle.pcl_fonts.specs.Table.{FontTable, table_view, IsFontMap};

    ghost Value = { FontTable };

    ghost view = { table_view };

    // One entry for an ID, and none from after a later deletion than the last.
    ghost invariant = { IsFontMap };
}

impl<'a> Fonts<'a> {
    ghost use Rattle.std.specs.Prelude.{ℕ, List, [], nat_eq, if◌then◌else◌};
    ghost use Rattle.std.specs.Map.{lookup};
    ghost use Rattle.std.specs.Option.{option_map};
    ghost use Rattle.pcl_fonts.specs.Fields.{info_of};
    ghost use Rattle.pcl_fonts.specs.History.{FontEvent, header, character, control, has_permanent};
    ghost use Rattle.pcl_fonts.specs.Table.{Holds, Follows, IsSame, HasHeader, HasCharacter, printed, font_at, character_in, stored_in};

    /// No fonts.
    pub fn new(alloc: Global) -> Fonts<'a>
        ensures { Holds result [] }
    {
        Fonts {
            entries: IndexMap::new(alloc),
            deletions: 0,
            alloc,
        }
    }

    /// Takes the header of a font for an ID (`ESC)s#W`). It is a new font without characters, temporary, in place of any
    /// other of the ID. FontHeader where the data are no header that the profile takes, on pages of this resolution. After an
    /// error nothing has changed.
    pub fn header(
        &mut self,
        id: u16,
        bytes: &'a [u8],
        profile: Profile,
        dpi: Dpi,
    ) -> Result<(), CallFault>
        ensures { HasHeader profile dpi id bytes.now result self.old self.new }
    {
        let Some(header) = Header::read(bytes, profile, dpi) else {
            return Err(CallFault::Refused(Kind::FontHeader));
        };
        let entry = Entry {
            info: header.info,
            font_type: header.font_type,
            is_permanent: false,
            deletions: self.deletions,
            characters: IndexMap::new(self.alloc),
        };
        match self.entries.insert(id, entry) {
            Ok(_) => Ok(()),
            Err(_) => Err(CallFault::Memory),
        }
    }

    /// Takes a character for an ID and a code (`ESC(s#W`), in place of any other. Without a font of the ID the data aren't
    /// looked at and nothing happens. CharacterData where they are no character that the profile takes. After an error nothing
    /// has changed.
    pub fn character(
        &mut self,
        id: u16,
        code: u8,
        bytes: &'a [u8],
        profile: Profile,
    ) -> Result<(), CallFault>
        ensures { HasCharacter profile id code bytes.now result self.old self.new }
    {
        let deletions = self.deletions;
        let alloc = self.alloc;
        let Some(entry) = self.entries.get_mut(&id) else {
            return Ok(());
        };
        if !entry.is_there(deletions) {
            return Ok(());
        }
        let glyph = Glyph::read(alloc, bytes, profile)?;
        match entry.characters.insert(code, glyph) {
            Ok(_) => Ok(()),
            Err(_) => Err(CallFault::Memory),
        }
    }

    /// Deletes fonts or a character, or makes a font temporary or permanent. What isn't there is left alone.
    pub fn control(&mut self, id: u16, code: u8, what: FontControl)
        ensures { Follows self.old self.new (control what id code) }
    {
        match what {
            FontControl::All => self.entries.clear(),
            FontControl::Temporary => self.delete_temporary(),
            FontControl::One => self.delete(id),
            FontControl::Character => self.delete_character(id, code),
            FontControl::MakeTemporary => self.set_permanent(id, false),
            FontControl::MakePermanent => self.set_permanent(id, true),
        }
    }

    /// Deletes the temporary fonts: from now on they are looked past. All are looked at where no more deletions can be counted, and then
    /// those go.
    fn delete_temporary(&mut self)
        ensures { Follows self.old self.new (control FontControl.Temporary 0 0) }
    {
        match self.deletions.checked_add(1) {
            Some(deletions) => self.deletions = deletions,
            None => self.forget_temporary(),
        }
    }

    /// Deletes the temporary fonts, and those that are looked past.
    fn forget_temporary(&mut self)
        ensures { Follows self.old self.new (control FontControl.Temporary 0 0) }
    {
        self.entries.retain(
            |_id: &u16, entry: &mut Entry<'_>| -> bool
                ensures { (result ≡ entry.old.is_permanent) × (entry.new ≡ entry.old) }
            { entry.is_permanent },
        );
        self.deletions = 0;
    }

    /// Deletes a font.
    fn delete(&mut self, id: u16)
        ensures { Follows self.old self.new (control FontControl.One id 0) }
    {
        self.entries.swap_remove(&id);
    }

    /// Deletes a character.
    fn delete_character(&mut self, id: u16, code: u8)
        ensures { Follows self.old self.new (control FontControl.Character id code) }
    {
        let deletions = self.deletions;
        let Some(entry) = self.entries.get_mut(&id) else {
            return;
        };
        if !entry.is_there(deletions) {
            return;
        }
        entry.characters.swap_remove(&code);
    }

    /// Makes a font temporary or permanent.
    fn set_permanent(&mut self, id: u16, is_permanent: bool)
        ensures { Follows self.old self.new (control (if is_permanent then FontControl.MakePermanent else FontControl.MakeTemporary) id 0) }
    {
        let deletions = self.deletions;
        let Some(entry) = self.entries.get_mut(&id) else {
            return;
        };
        if !entry.is_there(deletions) {
            return;
        }
        entry.is_permanent = is_permanent;
        entry.deletions = deletions;
    }

    /// The font of an ID with its characters, if it is there.
    fn entry(&self, id: u16) -> Option<&Entry<'a>>
        ensures { option_map (λ entry. stored_in entry.now) result ≡ lookup (nat_eq id) self.now }
    {
        let entry = self.entries.get(&id)?;
        if !entry.is_there(self.deletions) {
            return None;
        }
        Some(entry)
    }

    /// The font of an ID, if it is there.
    pub fn font(&self, id: u16) -> Option<FontInfo>
        ensures { result ≡ info_of (font_at self.now id) }
    {
        self.entry(id).map(|entry| entry.info)
    }

    /// Whether a font is there that is permanent.
    pub fn has_permanent(&self) -> bool
        ensures { (history : List FontEvent) → Holds self.now history → result ≡ has_permanent history }
    {
        self.entries.values().any(|entry| entry.is_permanent)
    }

    /// The character that a code prints in the font of an ID, if there is one. The code is one that fonts of this
    /// type have.
    pub fn glyph(&self, id: u16, code: u8) -> Option<Glyph<'a>>
        ensures { option_map character_in result ≡ printed self.now id code }
    {
        let entry = self.entry(id)?;
        if !entry.font_type.has_code(code) {
            return None;
        }
        entry.characters.get(&code).copied()
    }
}
