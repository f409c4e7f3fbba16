//! From a tree of selectors to their program.

ghost use Rattle.std.specs.Prelude.{◌≡◌, ◌+◌, ◌<◌, ◌≤◌, ◌||◌, Bool, IfOk, OnOk, is_some, true, false, length, map};
ghost use Rattle.lol_program.specs.Asts.{trees_of, nodes_of, is_with_rows};
ghost use Rattle.lol_program.specs.Views.{node_of, forest_of};
ghost use Rattle.lol_program.specs.Forest.{none, link, size};
ghost use Rattle.lol_instructions.specs.Compounds.{has_test_by_type};
ghost use Rattle.lol_program.specs.Predicates.{tests_of};
ghost use Rattle.lol_program.specs.Compiling.{AreCompiledTests};
ghost use Rattle.lol_instructions.specs.Compiled.{tests_in};
ghost use Rattle.lol_instructions.specs.CompiledKeys.{compiled_key_test};
ghost use Rattle.lol_instructions.specs.Keys.{key_tests};
ghost use Rattle.lol_program.specs.Programs.{IsProgramOf};
ghost use Rattle.lol_program.specs.Layouts.{width, range_of, any_by_type, selectors_in};
ghost use Rattle.lol_program.specs.ProgramViews.{program_shown, allocator_of, makes_rows, has_rows, HasItsRows, AreItsRows};
ghost use Rattle.lol_program.specs.Laying.{AreLaid, HasJumps, IsPlaced, SameOutside, SameElsewhere};

use crate::ast::Ast;
use crate::ast_node::AstNode;
use crate::compilable::compile_tests;
use crate::predicate::Predicate;
use crate::program::Program;
use lol_instructions::{AddressRange, CompiledPredicate, ExecutionBranch, Instruction};
use lol_memory::DenseHashSet;
use lol_rows::Rows;
use std::alloc::{AllocError, Global};
use std::mem;

/// What makes programs of trees of selectors (lol_html's `Compiler`).
#[derive(Drop)]
pub struct Compiler {
    alloc: Global,
    with_rows: bool,
}

impl Compiler {
    /// A compiler that takes memory here. This call takes none.
    pub fn new(alloc: Global) -> Self
        ensures alloc { allocator_of result ≡ alloc }
        ensures rows { makes_rows result ≡ false }
    {
        Compiler {
            alloc,
            with_rows: false,
        }
    }

    /// The same compiler, which makes each program with rows.
    pub fn with_rows(self) -> Self
        ensures alloc { allocator_of result ≡ allocator_of self }
        ensures rows { makes_rows result ≡ true }
    {
        Compiler {
            with_rows: true,
            ..self
        }
    }

    /// The program of a tree. A list of siblings takes the next free addresses in one range, and after it, node by node, its children's
    /// list and its descendants' list are laid out the same way. Names, operands and sets of ids move out of the tree, and nothing is
    /// cloned. The program has rows if the compiler or the tree is with rows. It is refused where memory is.
    pub fn compile(self, ast: Ast) -> Result<Program, AllocError>
        ensures program { IfOk result (λ program. (by_keys : Bool)
            → IsProgramOf (selectors_in by_keys (trees_of ast)) (nodes_of ast) (program_shown program)) }
        ensures rows { IfOk result HasItsRows }
        ensures mode { IfOk result (λ program. has_rows program ≡ (makes_rows self || is_with_rows ast)) }
    {
        let with_rows = self.with_rows || ast.has_rows();
        let mut layout = Layout {
            alloc: self.alloc,
            instructions: noops(self.alloc, ast.cumulative_node_count())?,
            free_space_start: 0,
            enable_nth_of_type: false,
        };
        let mut root = ast.into_root();
        let entry_points = 0..root.len();
        layout.compile_nodes(&mut root)?;
        let rows = if with_rows {
            Some(Rows::of(self.alloc, &layout.instructions)?)
        } else {
            None
        };
        Ok(Program {
            instructions: layout.instructions,
            entry_points,
            enable_nth_of_type: layout.enable_nth_of_type,
            rows,
        })
    }
}

/// So many instructions that do nothing.
fn noops(alloc: Global, count: usize) -> Result<Vec<Instruction>, AllocError>
    ensures { IfOk result (λ instructions. length instructions.items ≡ count) }
{
    let mut instructions = Vec::with_capacity(alloc, count)?;
    for _i in 0..count {
        instructions.push(Instruction::noop(alloc))?;
    }
    Ok(instructions)
}

/// Instructions of which some stand at their addresses.
#[derive(Drop)]
struct Layout {
    alloc: Global,
    instructions: Vec<Instruction>,
    // The first address that no list of siblings has.
    free_space_start: usize,
    enable_nth_of_type: bool,
}

impl Layout {
    /// Lays out siblings, with all that is under them. Their tests and ids are taken.
    #[cycle(compile)]
    fn compile_nodes(&mut self, nodes: &mut [AstNode]) -> Result<(), AllocError>
        requires { self.old.free_space_start + size (forest_of nodes.old) ≤ length self.old.instructions.items }
        ensures free_space { OnOk result (self.new.free_space_start
            ≡ self.old.free_space_start + size (forest_of nodes.old)) }
        ensures by_type { OnOk result (self.new.enable_nth_of_type
            ≡ (self.old.enable_nth_of_type || any_by_type (forest_of nodes.old))) }
        ensures laid { OnOk result (AreLaid self.new.instructions.items self.old.free_space_start
            (self.old.free_space_start + width (forest_of nodes.old)) (forest_of nodes.old)) }
        ensures same { OnOk result (SameOutside self.old.free_space_start self.new.free_space_start
            self.old.instructions.items self.new.instructions.items) }
    {
        let mut address = self.free_space_start;
        self.free_space_start += nodes.len();
        for node in nodes.iter_mut() {
            self.compile_node(node, address)?;
            address += 1;
        }
        Ok(())
    }

    /// Lays out siblings, if there are some.
    #[cycle(compile)]
    fn compile_list(&mut self, nodes: &mut [AstNode]) -> Result<Option<AddressRange>, AllocError>
        requires { self.old.free_space_start + size (forest_of nodes.old) ≤ length self.old.instructions.items }
        ensures range { IfOk result (λ r. r ≡ range_of (forest_of nodes.old) self.old.free_space_start) }
        ensures free_space { OnOk result (self.new.free_space_start
            ≡ self.old.free_space_start + size (forest_of nodes.old)) }
        ensures by_type { OnOk result (self.new.enable_nth_of_type
            ≡ (self.old.enable_nth_of_type || any_by_type (forest_of nodes.old))) }
        ensures laid { OnOk result (AreLaid self.new.instructions.items self.old.free_space_start
            (self.old.free_space_start + width (forest_of nodes.old)) (forest_of nodes.old)) }
        ensures same { OnOk result (SameOutside self.old.free_space_start self.new.free_space_start
            self.old.instructions.items self.new.instructions.items) }
    {
        if nodes.is_empty() {
            return Ok(None);
        }
        let range = self.free_space_start..self.free_space_start + nodes.len();
        self.compile_nodes(nodes)?;
        Ok(Some(range))
    }

    /// Lays out what is under a node, and the node at its address.
    #[cycle(compile)]
    fn compile_node(&mut self, node: &mut AstNode, address: usize) -> Result<(), AllocError>
        requires room { self.old.free_space_start
            + (size (node_of node.old).children + size (node_of node.old).descendants)
            ≤ length self.old.instructions.items }
        requires address { address < self.old.free_space_start }
        ensures free_space { OnOk result (self.new.free_space_start
            ≡ self.old.free_space_start + (size (node_of node.old).children + size (node_of node.old).descendants)) }
        ensures by_type { OnOk result (self.new.enable_nth_of_type
            ≡ (self.old.enable_nth_of_type || any_by_type (link (node_of node.old) none))) }
        ensures laid { OnOk result
            (AreLaid self.new.instructions.items address self.old.free_space_start (link (node_of node.old) none)) }
        ensures same { OnOk result (SameElsewhere address self.old.free_space_start self.new.free_space_start
            self.old.instructions.items self.new.instructions.items) }
    {
        self.place_node(address, &mut node.predicate, &mut node.match_ids)?;
        let jumps = self.compile_list(&mut node.children)?;
        let hereditary_jumps = self.compile_list(&mut node.descendants)?;
        self.set_jumps(address, jumps, hereditary_jumps);
        Ok(())
    }

    /// Takes the tests and the ids of a node, and puts its instruction at an address, without ranges.
    // Inlined, it would make each step of a recursion take more of the stack.
    #[inline(never)]
    fn place_node(
        &mut self,
        address: usize,
        predicate: &mut Predicate,
        match_ids: &mut DenseHashSet,
    ) -> Result<(), AllocError>
        requires { address < length self.old.instructions.items }
        ensures placed { OnOk result
            (IsPlaced address match_ids.old (tests_of predicate.old)
            self.old.instructions.items self.new.instructions.items) }
        ensures by_type { OnOk result (self.new.enable_nth_of_type
            ≡ (self.old.enable_nth_of_type || has_test_by_type (tests_of predicate.old))) }
        ensures free_space { self.new.free_space_start ≡ self.old.free_space_start }
    {
        let no_tests = Predicate {
            tests: Vec::new(self.alloc),
        };
        let predicate = mem::replace(predicate, no_tests);
        let matched_ids = mem::replace(match_ids, DenseHashSet::new(self.alloc));
        let tests = compile_tests(self.alloc, predicate.tests, &mut self.enable_nth_of_type)?;
        let associated_branch = ExecutionBranch {
            matched_ids,
            jumps: None,
            hereditary_jumps: None,
        };
        self.instructions[address] = Instruction::new(
            associated_branch,
            CompiledPredicate::new(tests),
        );
        Ok(())
    }

    /// Gives the instruction at an address its ranges.
    fn set_jumps(
        &mut self,
        address: usize,
        jumps: Option<AddressRange>,
        hereditary_jumps: Option<AddressRange>,
    )
        requires { address < length self.old.instructions.items }
        ensures jumps { HasJumps address jumps hereditary_jumps self.old.instructions.items
            self.new.instructions.items }
        ensures by_type { self.new.enable_nth_of_type ≡ self.old.enable_nth_of_type }
        ensures free_space { self.new.free_space_start ≡ self.old.free_space_start }
    {
        let branch = &mut self.instructions[address].associated_branch;
        branch.jumps = jumps;
        branch.hereditary_jumps = hereditary_jumps;
    }
}
