//! A mesh that is written to a sink a vertex and a face at a time.

ghost use Rattle.std.specs.Prelude.{◌≡◌, ◌<◌, ◌^◌, ◌++◌, true, is_ok, if◌then◌else◌, IfOk, IfErr, OnOk, OnErr};
ghost use Rattle.fault_counts.specs.Counts.{HasCause};
ghost use Rattle.fault_counts.specs.Told.{Puts, PutsPrefix};
ghost use Rattle.oemm_io.specs.Whole.{StaysOpen};
ghost use Rattle.mesh_out.specs.Form.{form_head, form_vertex, form_face};
ghost use Rattle.mesh_out.specs.Stream.{after_vertex, after_face, PutsBefore};

use crate::block::{Block, make_room};
use crate::form::{Form, OutFault};
use crate::records::{push_face, push_head, push_vertex};
use mesh_data::{Name, Tri};
use oemm_io::{Failed, Sink, put_all};
use oemm_octree::Point;
use std::alloc::Global;
use std::marker::Model;

/// A mesh that is written a vertex and a face at a time.
///
/// What is written waits in a block of 64 KiB, and goes to the sink where a vertex or a face finds no
/// room there, and at the end.
#[derive(Drop)]
pub struct MeshOut<O> {
    sink: O,
    form: Form,
    vertices: u32,
    faces: u32,
    block: Block,
}

impl<O> Model for MeshOut<O> {
    ghost use Rattle.mesh_out.specs.Stream.{OpenMesh};

    ghost Value = { OpenMesh O };

    ghost view = { λ a. record {
      sink = a.sink;
      plan = record { form = a.form; vertices = a.vertices; faces = a.faces };
      buffered = a.block.left;
    } };
}

impl<O> MeshOut<O> {
    /// Begins a mesh of `v` vertices and `f` faces with its header, which waits like all that follows.
    ///
    /// # Errors
    /// `Memory` where the block can't be had. The sink comes back as it was.
    pub fn new(
        alloc: Global,
        sink: O,
        form: Form,
        v: u32,
        f: u32,
    ) -> Result<MeshOut<O>, (O, OutFault)>
        ensures ok { IfOk result (λ out. out ≡ record {
          sink = sink;
          plan = record { form = form; vertices = v; faces = f };
          buffered = form_head form v f;
        }) }
        ensures err { IfErr result (λ e. e ≡ (sink, OutFault.Memory)) }
    {
        let Ok(mut block) = Block::new(alloc) else {
            return Err((sink, OutFault::Memory));
        };
        push_head(&mut block, form, v, f);
        Ok(MeshOut {
            sink,
            form,
            vertices: v,
            faces: f,
            block,
        })
    }

    /// The sink, without what waits.
    pub fn into_sink(self) -> O
        ensures { result ≡ self.sink }
    {
        let MeshOut { sink, .. } = self;
        sink
    }
}

impl<O: Sink> MeshOut<O> {
    /// Writes the next vertex. The sink is then finished only if it was before.
    ///
    /// # Errors
    /// `Failed` where the sink fails. The vertex is then still to be written.
    pub fn vertex(&mut self, p: Point) -> Result<(), Failed>
        requires { 0 < self.old.plan.vertices }
        ensures plan { self.new.plan ≡ (if is_ok result then after_vertex self.old.plan else self.old.plan) }
        ensures ok { OnOk result (PutsBefore (O.written self.old.sink) (O.written self.new.sink)
            (self.old.buffered ++ form_vertex self.old.plan.form p) self.new.buffered) }
        ensures err { OnErr result (PutsBefore (O.written self.old.sink) (O.written self.new.sink)
            self.old.buffered self.new.buffered) }
        ensures open { StaysOpen (O.finished self.old.sink) (O.finished self.new.sink) }
        ensures cause { HasCause (O.faults self.old.sink) (O.faults self.new.sink) result }
    {
        make_room(&mut self.sink, &mut self.block)?;
        push_vertex(&mut self.block, self.form, &p);
        self.vertices -= 1;
        Ok(())
    }

    /// Writes the next face, which has these places of vertices, once all vertices are written. The
    /// sink is then finished only if it was before.
    ///
    /// # Errors
    /// `Failed` where the sink fails. The face is then still to be written.
    pub fn face(&mut self, a: u32, b: u32, c: u32) -> Result<(), Failed>
        requires vertices { self.old.plan.vertices ≡ 0 }
        requires faces { 0 < self.old.plan.faces }
        requires a { a < 2 ^ 31 }
        requires b { b < 2 ^ 31 }
        requires c { c < 2 ^ 31 }
        ensures plan { self.new.plan ≡ (if is_ok result then after_face self.old.plan else self.old.plan) }
        ensures ok { OnOk result (PutsBefore (O.written self.old.sink) (O.written self.new.sink)
            (self.old.buffered ++ form_face self.old.plan.form (record { a = a; b = b; c = c })) self.new.buffered) }
        ensures err { OnErr result (PutsBefore (O.written self.old.sink) (O.written self.new.sink)
            self.old.buffered self.new.buffered) }
        ensures open { StaysOpen (O.finished self.old.sink) (O.finished self.new.sink) }
        ensures cause { HasCause (O.faults self.old.sink) (O.faults self.new.sink) result }
    {
        make_room(&mut self.sink, &mut self.block)?;
        let t = Tri {
            a: Name(a),
            b: Name(b),
            c: Name(c),
        };
        push_face(&mut self.block, self.form, &t);
        self.faces -= 1;
        Ok(())
    }

    /// Puts what waits, and finishes the sink, once all vertices and faces are written.
    ///
    /// # Errors
    /// `Failed` where the sink fails. It then has a prefix of what waited, and is finished only if it
    /// was before.
    pub fn end(self) -> (O, Result<(), Failed>)
        requires vertices { self.plan.vertices ≡ 0 }
        requires faces { self.plan.faces ≡ 0 }
        ensures ok { OnOk result.1 (Puts (O.written self.sink) (O.written result.0) self.buffered) }
        ensures finished { OnOk result.1 (O.finished result.0 ≡ true) }
        ensures open { OnErr result.1 (StaysOpen (O.finished self.sink) (O.finished result.0)) }
        ensures front { PutsPrefix (O.written self.sink) (O.written result.0) self.buffered }
        ensures cause { HasCause (O.faults self.sink) (O.faults result.0) result.1 }
    {
        let MeshOut { sink, block, .. } = self;
        put_all(sink, block.left())
    }
}
