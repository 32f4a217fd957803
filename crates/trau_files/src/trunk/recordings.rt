//! Which files the folder's incoming lines have, including lines that no order has opened yet.

ghost use Rattle.std.specs.Prelude.{◌≡◌, ◌≢◌, ◌+◌, ℕ, IfSome, Some, None};
ghost use Rattle.call_number.specs.declared.TheConstants.{LAST_CALL};
ghost use Rattle.trau_io.specs.Indices.{index_of_line};
ghost use Rattle.trau_files.specs.Files.{file_name};
ghost use Rattle.trau_files.specs.Recordings.{AreLed, AreRecordings, AreSearched, IsIncoming, IsLed, IsMissing, IsNoRecording, IsRecording, LeadsNowhere, LeadsTo, noted_at};

use super::claims::FileIdentity;
use super::name::name_of;
use crate::folder::Folder;
use call_number::LAST_CALL;
use std::alloc::{AllocError, Global};
use std::marker::{Model, PhantomData};
use trau_io::{LINE_INDICES, Line, Side, line_index};

/// The files of the incoming lines of all calls, by the lines' indices, as they were when a search first met them.
#[derive(Drop)]
pub struct Recordings<D: Folder> {
    of_lines: Vec<Option<FileIdentity>>,
    is_searched: bool,
    folder: PhantomData<D>,
}

impl<D: Folder> Model for Recordings<D> {
    ghost use Rattle.std.specs.Prelude.{◌≡◌, ◌+◌, List, Option, true, vec_len};
    ghost use Rattle.call_number.specs.declared.TheConstants.{LAST_CALL};
    ghost use Rattle.trau_io.specs.declared.line_table.TheConstants.{LINE_INDICES};
    ghost use Rattle.trau_files.specs.declared.trunk.claims.FileIdentity.{FileIdentity};
    ghost use Rattle.trau_files.specs.Recordings.{AreRecordings, AreSearched, LedNowhere};

    ghost Value = { List (Option FileIdentity) };

    ghost view = { λ r. r.of_lines.items };

    ghost invariant = { λ r. (vec_len r.of_lines ≡ LINE_INDICES) × AreRecordings D.does r.of_lines.items
        × (r.is_searched ≡ true → AreSearched (LedNowhere D.does) r.of_lines.items (LAST_CALL + 1)) };
}

impl<D: Folder> Recordings<D> {
    /// The folder isn't searched yet.
    pub fn new(alloc: Global) -> Result<Recordings<D>, AllocError> {
        let of_lines = Vec::from_elem(alloc, None, LINE_INDICES)?;
        Ok(Recordings {
            of_lines,
            is_searched: false,
            folder: PhantomData,
        })
    }

    /// The index of an incoming line that has this file. If the file was made just now, its making may have given it to
    /// any line, so the folder is searched anew: also for names whose file was removed since.
    pub fn place_of(&mut self, folder: &D, file: FileIdentity, is_new: bool) -> Option<usize>
        ensures found { IfSome result (λ other. IsRecording D.does other file) }
        ensures none { result ≡ None → IsNoRecording D.does folder.now is_new file }
    {
        self.refresh(folder, is_new);
        self.position(file)
    }

    // The index of a line for which this file is noted.
    fn position(&self, file: FileIdentity) -> Option<usize>
        ensures found { IfSome result (λ place. noted_at self.now place ≡ Some file) }
        ensures none { result ≡ None → (k : ℕ) → noted_at self.now k ≢ Some file }
    {
        for place in 0..LINE_INDICES {
            if self.of_lines[place] == Some(file) {
                return Some(place);
            }
        }
        None
    }

    // Forgets all files.
    fn clear(&mut self)
        ensures { (k : ℕ) (file : FileIdentity) → noted_at self.new k ≢ Some file }
    {
        self.is_searched = false;
        for place in 0..LINE_INDICES {
            self.of_lines[place] = None;
        }
    }

    // Searches the folder, unless that was done before and no file was made since.
    fn refresh(&mut self, folder: &D, is_new: bool)
        ensures recordings { AreRecordings D.does self.new }
        ensures led { AreLed (IsLed D.does folder.now is_new) self.new }
        ensures searched { AreSearched (IsMissing D.does folder.now is_new) self.new (LAST_CALL + 1) }
    {
        if is_new {
            self.clear();
            self.search(folder);
        } else if !self.is_searched {
            self.search(folder);
        }
    }

    // Up and Pcm of each call, unless their files are known.
    fn search(&mut self, folder: &D)
        ensures recordings { AreRecordings D.does self.new }
        ensures led { AreLed (LeadsTo D.does folder.now) self.old → AreLed (LeadsTo D.does folder.now) self.new }
        ensures searched { AreSearched (LeadsNowhere D.does folder.now) self.new (LAST_CALL + 1) }
    {
        for call in 1..=LAST_CALL {
            self.note(folder, call, Side::Up);
            self.note(folder, call, Side::Pcm);
        }
        self.is_searched = true;
    }

    // Notes the file of an incoming line, if it has one.
    fn note(&mut self, folder: &D, call: u32, side: Side)
        requires { IsIncoming call side }
        ensures recordings { AreRecordings D.does self.new }
        ensures led { AreLed (LeadsTo D.does folder.now) self.old → AreLed (LeadsTo D.does folder.now) self.new }
        ensures looked { noted_at self.new (index_of_line call side) ≡ None → LeadsNowhere D.does folder.now (file_name call side) }
        ensures others { (k : ℕ) → k ≢ index_of_line call side → noted_at self.new k ≡ noted_at self.old k }
    {
        let line = Line { call, side };
        let place = line_index(line);
        if self.of_lines[place].is_some() {
            return;
        }
        if let Ok(metadata) = folder.metadata(name_of(line).as_str()) {
            self.of_lines[place] = Some(folder.identify(&metadata));
        }
    }
}
