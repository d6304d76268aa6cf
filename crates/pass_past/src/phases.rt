//! Versions that are kept one after the other.
ghost use Rattle.std.specs.Prelude.{◌≡◌, ◌++◌, ◌∷◌, ◌+◌, ◌<◌, ◌≤◌, ◌&&◌, ◌^◌, [], ℕ, List, IsTrue, OnOk, IfErr, IfOk, length, take, map};
ghost use Rattle.pass_entry.specs.declared.entry.Entry.{Entry as AnyEntry};
ghost use Rattle.pass_plain.specs.Legal.{session_of, IsLegal};
ghost use Rattle.pass_plain.specs.Sound.{IsSound};
ghost use Rattle.pass_plain.specs.Recording.{IsRecording, IsVersionStep};
ghost use Rattle.pass_plain.specs.Versions.{nodes_of};
ghost use Rattle.pass_plain.specs.declared.start.Start.{Start as AnyStart};
ghost use Rattle.pass_plain.specs.Registries.{registry_after};
ghost use Rattle.pass_leaf.specs.Keeping.{FileVersion};
ghost use Rattle.pass_leaf.specs.Archives.{Archive};
ghost use Rattle.pass_past.specs.Pasts.{opened_versions, is_file_in, ended_by, ended_versions, version_of, current_versions};
ghost use Rattle.pass_past.specs.Walks.{AreFiles, IsEnding, IsWalked};
ghost use Rattle.pass_past.specs.Keepings.{IsKeeping, IsHalted};

use crate::contents::{add_files, content, is_file, listed, opened_files};
use pass_entry::{Entry, Node, Pnode};
use pass_leaf::{LARGEST, Old, OldFault};
use pass_outside::Disk;
use pass_plain::{Recording, Start, VersionStep};
use pass_report::Trail;
use std::alloc::{AllocError, Global};
use std::collections::BTreeSet;

// A version of this file and size can be kept.
fn may_be_kept(file: Pnode, size: u64) -> bool
    ensures { IsTrue result → (1 ≤ file) × (size ≤ 2 ^ 28) }
{
    file.0 > 0 && size <= LARGEST
}

/// Keeps one version more, of those of a keeping. A number or a size that no file has is a want of memory.
pub fn keep_next<A: Disk>(old: &mut Old<A>, node: Node, bytes: &[u8]) -> Result<(), OldFault>
    ensures kept { OnOk result ((first : Archive A) (done : List FileVersion) → IsKeeping A.view first done old.old → IsKeeping A.view first (done ++ record { node = node; bytes = bytes.now } ∷ []) old.new) }
    ensures stopped { IfErr result (λ e. (first : Archive A) (done : List FileVersion) → IsKeeping A.view first done old.old → IsHalted A.view first (done ++ record { node = node; bytes = bytes.now } ∷ []) old.new e) }
{
    if !may_be_kept(node.pnode, bytes.len() as u64) {
        return Err(OldFault::NoMemory);
    }
    match old.keep(node, bytes) {
        Ok(_kept) => Ok(()),
        Err(fault) => Err(fault),
    }
}

/// Keeps the versions with which a session opened.
pub(crate) fn keep_opened<A: Disk>(old: &mut Old<A>, start: &Start) -> Result<(), OldFault>
    ensures kept { OnOk result ((first : Archive A) (done : List FileVersion) → IsKeeping A.view first done old.old → IsKeeping A.view first (done ++ opened_versions start.now) old.new) }
    ensures stopped { IfErr result (λ e. (first : Archive A) (done : List FileVersion) → IsKeeping A.view first done old.old → IsHalted A.view first (done ++ opened_versions start.now) old.new e) }
{
    for file in &start.files {
        if let Err(fault) = keep_next(old, file.node, &file.bytes) {
            return Err(fault);
        }
    }
    Ok(())
}

// The entry ends a version of a file.
fn is_ended(files: &BTreeSet<Pnode>, pnode: Pnode, freezes: bool) -> bool
    ensures { (start : AnyStart) (history : List AnyEntry) → AreFiles start history files.now → result ≡ (is_file_in (registry_after (session_of start 0) history) pnode && freezes) }
{
    let file = is_file(files, pnode);
    file & freezes
}

// Keeps the version of a file that an entry ends, where it ends one.
fn keep_ended_by<A: Disk>(
    old: &mut Old<A>,
    start: &Start,
    recording: &Recording,
    files: &BTreeSet<Pnode>,
    node: Node,
    freezes: bool,
) -> Result<(), OldFault>
    ensures kept { OnOk result ((first : Archive A) (done : List FileVersion) (past : List AnyEntry) (e : AnyEntry) → IsEnding start.now past recording.now files.now node freezes e
        → IsKeeping A.view first done old.old → IsKeeping A.view first (done ++ ended_by (session_of start.now 0) past e) old.new) }
    ensures stopped { IfErr result (λ fault. (first : Archive A) (done : List FileVersion) (past : List AnyEntry) (e : AnyEntry) → IsEnding start.now past recording.now files.now node freezes e
        → IsKeeping A.view first done old.old → IsHalted A.view first (done ++ ended_by (session_of start.now 0) past e) old.new fault) }
{
    if !is_ended(files, node.pnode, freezes) {
        return Ok(());
    }
    keep_next(old, node, content(recording, start, node.pnode))
}

/// A history that was walked so far: the version of each object, the objects and the changed files, and the files' numbers.
#[derive(Drop)]
pub(crate) struct Walked {
    pub(crate) trail: Trail,
    pub(crate) recording: Recording,
    pub(crate) files: BTreeSet<Pnode>,
}

impl Walked {
    // Before the first entry.
    fn opened(alloc: Global, start: &Start) -> Result<Walked, AllocError>
        ensures { IfOk result (IsWalked start.now []) }
    {
        let recording = Recording::new(alloc, start)?;
        let files = opened_files(alloc, &recording)?;
        Ok(Walked {
            trail: Trail::new(alloc),
            recording,
            files,
        })
    }

    // Goes on with an entry, of which the trail has made this step.
    fn record(
        &mut self,
        alloc: Global,
        start: &Start,
        past: &[Entry],
        entry: &Entry,
        turn: &VersionStep,
    ) -> Result<(), AllocError>
        requires step { IsVersionStep start.now past.now (nodes_of (session_of start.now 0) past.now) entry.now turn.now }
        requires recording { IsRecording start.now past.now self.old.recording }
        requires files { AreFiles start.now past.now self.old.files }
        ensures recording { OnOk result (IsRecording start.now (past.now ++ entry.now ∷ []) self.new.recording) }
        ensures files { OnOk result (AreFiles start.now (past.now ++ entry.now ∷ []) self.new.files) }
        ensures trail { self.new.trail ≡ self.old.trail }
    {
        let known = self.recording.objects().len();
        self.recording.note(alloc, start, past, entry, turn)?;
        add_files(&mut self.files, &self.recording.objects()[known..])
    }
}

// Keeps the version that the entry at a place ends, and goes on with it.
fn keep_at<A: Disk>(
    old: &mut Old<A>,
    alloc: Global,
    start: &Start,
    history: &[Entry],
    place: usize,
    walked: &mut Walked,
) -> Result<(), OldFault>
    requires legal { (objects : ℕ) × IsSound (session_of start.now objects) × IsLegal (session_of start.now objects) history.now }
    requires place { place < length history.now }
    requires walked { IsWalked start.now (take place history.now) walked.old }
    ensures walked { OnOk result (IsWalked start.now (take (place + 1) history.now) walked.new) }
    ensures kept { OnOk result ((first : Archive A) (done : List FileVersion) → IsKeeping A.view first (done ++ ended_versions (session_of start.now 0) (take place history.now)) old.old
        → IsKeeping A.view first (done ++ ended_versions (session_of start.now 0) (take (place + 1) history.now)) old.new) }
    ensures stopped { IfErr result (λ e. (first : Archive A) (done : List FileVersion) → IsKeeping A.view first (done ++ ended_versions (session_of start.now 0) (take place history.now)) old.old
        → IsHalted A.view first (done ++ ended_versions (session_of start.now 0) (take (place + 1) history.now)) old.new e) }
{
    let entry = &history[place];
    let node = Node {
        pnode: entry.what,
        version: walked.trail.version(start, entry.what),
    };
    let turn = match walked.trail.note(start, entry) {
        Ok(turn) => turn,
        Err(_refused) => return Err(OldFault::NoMemory),
    };
    if let Err(fault) = keep_ended_by(
        old,
        start,
        &walked.recording,
        &walked.files,
        node,
        turn.freezes,
    ) {
        return Err(fault);
    }
    match walked.record(alloc, start, &history[..place], entry, &turn) {
        Ok(()) => Ok(()),
        Err(_refused) => Err(OldFault::NoMemory),
    }
}

/// Keeps the versions that the entries of a history end.
pub(crate) fn keep_ended<A: Disk>(
    old: &mut Old<A>,
    alloc: Global,
    start: &Start,
    history: &[Entry],
) -> Result<Walked, OldFault>
    requires { (objects : ℕ) × IsSound (session_of start.now objects) × IsLegal (session_of start.now objects) history.now }
    ensures walked { IfOk result (IsWalked start.now history.now) }
    ensures kept { OnOk result ((first : Archive A) (done : List FileVersion) → IsKeeping A.view first done old.old → IsKeeping A.view first (done ++ ended_versions (session_of start.now 0) history.now) old.new) }
    ensures stopped { IfErr result (λ e. (first : Archive A) (done : List FileVersion) → IsKeeping A.view first done old.old → IsHalted A.view first (done ++ ended_versions (session_of start.now 0) history.now) old.new e) }
{
    let mut walked = match Walked::opened(alloc, start) {
        Ok(walked) => walked,
        Err(_refused) => return Err(OldFault::NoMemory),
    };
    for place in 0..history.len() {
        if let Err(fault) = keep_at(old, alloc, start, history, place, &mut walked) {
            return Err(fault);
        }
    }
    Ok(walked)
}

// Keeps the version that a file has at the end.
fn keep_current_of<A: Disk>(
    old: &mut Old<A>,
    start: &Start,
    walked: &Walked,
    file: Pnode,
) -> Result<(), OldFault>
    ensures kept { OnOk result ((first : Archive A) (done : List FileVersion) (history : List AnyEntry) → IsWalked start.now history walked.now
        → IsKeeping A.view first done old.old → IsKeeping A.view first (done ++ version_of (session_of start.now 0) history file ∷ []) old.new) }
    ensures stopped { IfErr result (λ fault. (first : Archive A) (done : List FileVersion) (history : List AnyEntry) → IsWalked start.now history walked.now
        → IsKeeping A.view first done old.old → IsHalted A.view first (done ++ version_of (session_of start.now 0) history file ∷ []) old.new fault) }
{
    let node = Node {
        pnode: file,
        version: walked.trail.version(start, file),
    };
    keep_next(old, node, content(&walked.recording, start, file))
}

// Keeps the versions that these files have at the end.
fn keep_files<A: Disk>(
    old: &mut Old<A>,
    start: &Start,
    walked: &Walked,
    files: &[Pnode],
) -> Result<(), OldFault>
    ensures kept { OnOk result ((first : Archive A) (done : List FileVersion) (history : List AnyEntry) → IsWalked start.now history walked.now
        → IsKeeping A.view first done old.old → IsKeeping A.view first (done ++ map (version_of (session_of start.now 0) history) files.now) old.new) }
    ensures stopped { IfErr result (λ fault. (first : Archive A) (done : List FileVersion) (history : List AnyEntry) → IsWalked start.now history walked.now
        → IsKeeping A.view first done old.old → IsHalted A.view first (done ++ map (version_of (session_of start.now 0) history) files.now) old.new fault) }
{
    for file in files {
        if let Err(fault) = keep_current_of(old, start, walked, *file) {
            return Err(fault);
        }
    }
    Ok(())
}

/// Keeps the versions that the files have at the end.
pub(crate) fn keep_current<A: Disk>(
    old: &mut Old<A>,
    alloc: Global,
    start: &Start,
    walked: &Walked,
) -> Result<(), OldFault>
    ensures kept { OnOk result ((first : Archive A) (done : List FileVersion) (history : List AnyEntry) → IsWalked start.now history walked.now
        → IsKeeping A.view first done old.old → IsKeeping A.view first (done ++ current_versions (session_of start.now 0) history) old.new) }
    ensures stopped { IfErr result (λ fault. (first : Archive A) (done : List FileVersion) (history : List AnyEntry) → IsWalked start.now history walked.now
        → IsKeeping A.view first done old.old → IsHalted A.view first (done ++ current_versions (session_of start.now 0) history) old.new fault) }
{
    let files = match listed(alloc, &walked.files) {
        Ok(files) => files,
        Err(_refused) => return Err(OldFault::NoMemory),
    };
    keep_files(old, start, walked, &files)
}
